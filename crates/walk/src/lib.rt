// The list of sequents as a walk of slots, which counts and finds sequents without making them. A slot is an event (0 for none), a group and a row.
#![tactic(auto)]

ghost use Rattle.std.specs.Prelude.{◌≡◌, ◌+◌, ◌≤◌, ◌<◌, ◌^◌, length};
ghost use Rattle.table.specs.Lookups.{most_words};
ghost use Rattle.table.specs.Rows.{rows_of};
ghost use Rattle.machine.specs.Described.{machine_of};
ghost use Rattle.sequent.specs.Listed.{sequents};
ghost use Rattle.rules.specs.Verdict.{Passes};
ghost use Rattle.select.specs.Sought.{Passed};
ghost use Rattle.groups.specs.Groups.{groups};
ghost use Rattle.walk.specs.Slots.{slot_at, sought_at, next_group, slot_count, InWalk, position, SoughtSlot};
ghost use Rattle.walk.specs.Headers.{is_wfis, header_kind, header_item};

use groups::{Group, group_at};
use nodes::Index;
use select::{Sought, divisions, item_at, seek_row};
use sequent::kind;

// A slot of the walk, and how many sequents from its first on a search has still to pass over.
#[derive(Clone, Copy)]
pub struct Slot {
    pub event: u64,
    pub group: u64,
    pub row: usize,
    pub left: u64,
}

impl Slot {
    // The first slot of the walk, with sequents to pass over.
    pub fn start(left: u64) -> Self
        ensures { result ≡ slot_at 0 0 0 left }
    {
        Self {
            event: 0,
            group: 0,
            row: 0,
            left,
        }
    }

    // The same slot, with one more to pass over.
    pub fn after(self) -> Self
        requires { self.left < 2 ^ 63 }
        ensures { result ≡ slot_at self.event self.group self.row (self.left + 1) }
    {
        Self {
            event: self.event,
            group: self.group,
            row: self.row,
            left: self.left + 1,
        }
    }

    // The same group at another row.
    fn at(self, found: Sought) -> Self
        ensures { result ≡ slot_at self.event self.group found.row found.left }
    {
        Self {
            event: self.event,
            group: self.group,
            row: found.row,
            left: found.left,
        }
    }

    // The next group's first row, or the next event's first.
    fn next_group(self, left: u64) -> Self
        requires { (self.event < 2 ^ 63) × (self.group < groups) }
        ensures { result ≡ next_group self left }
    {
        if self.group + 1 < Group::COUNT {
            return Self {
                event: self.event,
                group: self.group + 1,
                row: 0,
                left,
            };
        }
        Self {
            event: self.event + 1,
            group: 0,
            row: 0,
            left,
        }
    }
}

// Whether a slot's sequent is the WFIS of a witness, which stands behind its WD, where that is listed.
fn is_wfis(index: &Index, slot: Slot) -> bool
    ensures { result ≡ is_wfis (rows_of index.now.table.words.now) slot.group slot.row slot.left }
{
    if slot.group == Group::WITNESS {
        return slot.left == divisions(index, index.table.c_at(slot.row));
    }
    false
}

// The kind of a slot's sequent.
pub fn header_kind(index: &Index, slot: Slot) -> u64
    ensures { result ≡ header_kind (rows_of index.now.table.words.now) slot.event slot.group slot.row slot.left }
{
    if is_wfis(index, slot) {
        return kind::WFIS;
    }
    group_at(&index.table, slot.event, slot.group).kind
}

// Its item: root, variable or identifier.
pub fn header_item(index: &Index, slot: Slot) -> u64
    requires { slot.row < (rows_of index.now.table.words.now).size }
    ensures { result ≡ header_item (rows_of index.now.table.words.now) slot.event slot.group slot.row slot.left }
{
    if is_wfis(index, slot) {
        return index.table.b_at(slot.row);
    }
    let group = group_at(&index.table, slot.event, slot.group);
    let item = group.item;
    item_at(index, item, slot.event, slot.row)
}

// Walks on within a slot's group.
fn seek_in_group(index: &Index, slot: Slot) -> Sought
    requires { slot.row ≤ (rows_of index.now.table.words.now).size }
    ensures { Passed (slot_count (rows_of index.now.table.words.now) slot.event slot.group) (rows_of index.now.table.words.now).size (sought_at slot) result }
{
    let group = group_at(&index.table, slot.event, slot.group);
    let rows = group.rows;
    let each = group.each;
    let from = Sought {
        row: slot.row,
        left: slot.left,
    };
    seek_row(index, rows, each, index.table.size(), from)
}

// Walks on from a slot until what is left to pass over lies in a slot, or to the end. Counting, finding and printing all walk by this.
pub fn seek(index: &Index, from: Slot) -> Slot
    requires { InWalk (rows_of index.now.table.words.now) from }
    ensures { SoughtSlot (rows_of index.now.table.words.now) (position (rows_of index.now.table.words.now) from) result }
{
    let rows = index.table.size();
    let mut slot = from;
    // not counted: a turn goes on to another row, the next group or the next event
    while slot.event <= index.table.counts.events {
        let found = seek_in_group(index, slot);
        if found.row < rows {
            return slot.at(found);
        }
        slot = slot.next_group(found.left);
    }
    slot
}

// More sequents than a table can have.
const MANY: u64 = 4294967296;

// How many sequents a table that passes all checks has.
pub fn count(index: &Index) -> u64
    requires table_value { length index.now.table.words.now ≤ most_words }
    requires passes { Passes (rows_of index.now.table.words.now) }
    ensures { result ≡ length (sequents (machine_of (rows_of index.now.table.words.now))) }
{
    let end = seek(index, Slot::start(MANY));
    MANY - end.left
}
