// 01, Sequents: the entries of a slot's sequent, the hypotheses by a walk of segments and the goal: counted, found, written. What is left to pass over in the slot is
// which of its sequents is meant: of a witness its WD or its WFIS.
#![tactic(auto)]

ghost use Rattle.std.specs.Prelude.{◌≡◌, ◌+◌, ◌*◌, ◌≤◌, ◌<◌, length};
ghost use Rattle.lists.specs.Over.{over};
ghost use Rattle.row.specs.Row.{width, row_length};
ghost use Rattle.table.specs.Rows.{rows_of};
ghost use Rattle.sequent.specs.Numbers.{numbers_of};
ghost use Rattle.reply.specs.Printed.{rows_bytes};
ghost use Rattle.segments.specs.Segments.{segments};
ghost use Rattle.entries.specs.Sequent.{goal_at, hypothesis_count};
ghost use Rattle.entries.specs.Seek.{cursor_at, entry_at, Stands, SoughtEntry};
ghost use Rattle.entries.specs.Written.{numbers_row, hypothesis_rows, entry_rows};

use nodes::Index;
use reply::tags;
use row::Row;
use segments::{Segment, goal_of, segment_at, segment_entry};
use select::{Each, Sought, seek_row};
use sequent::Entry;
use walk::{Slot, header_item, header_kind};

// The goal of a slot's sequent.
pub fn goal_at(index: &Index, slot: Slot) -> Entry
    requires { slot.row < (rows_of index.now.table.words.now).size }
    ensures { result ≡ numbers_of (goal_at (rows_of index.now.table.words.now) slot) }
{
    let kind = header_kind(index, slot);
    let item = header_item(index, slot);
    goal_of(&index.table, kind, slot.event, item)
}

// A place in the walk of a slot's hypotheses: a row of a segment, and how many hypotheses are left to pass. Past the last segment is the end.
#[derive(Clone, Copy)]
pub struct Cursor {
    pub segment: u64,
    pub row: usize,
    pub left: u64,
}

impl Cursor {
    // The place of the first row, with hypotheses to pass.
    fn start(left: u64) -> Self
        ensures { result ≡ cursor_at 0 0 left }
    {
        Self {
            segment: 0,
            row: 0,
            left,
        }
    }

    // The same place, with its own hypothesis to pass.
    fn passing(self) -> Self
        ensures { result ≡ cursor_at self.segment self.row 1 }
    {
        Self {
            segment: self.segment,
            row: self.row,
            left: 1,
        }
    }

    // The same segment at another row.
    fn at(self, found: Sought) -> Self
        ensures { result ≡ cursor_at self.segment found.row found.left }
    {
        Self {
            segment: self.segment,
            row: found.row,
            left: found.left,
        }
    }

    // The next segment's first row.
    fn next_segment(self, left: u64) -> Self
        requires { self.segment < segments }
        ensures { result ≡ cursor_at (self.segment + 1) 0 left }
    {
        Self {
            segment: self.segment + 1,
            row: 0,
            left,
        }
    }
}

// Walks on from a place to the hypothesis after as many as are left to pass, or to the end.
fn seek_entry(index: &Index, slot: Slot, from: Cursor) -> Cursor
    requires table_value { slot.row < (rows_of index.now.table.words.now).size }
    requires stands { Stands (rows_of index.now.table.words.now) slot from }
    ensures { SoughtEntry (rows_of index.now.table.words.now) slot from result }
{
    let mut cursor = from;
    // not counted: a turn goes on to another row or the next segment
    while cursor.segment < Segment::COUNT {
        let part = segment_at(&index.table, slot, cursor.segment);
        let rows = part.rows;
        let end = part.before;
        let at = Sought {
            row: cursor.row,
            left: cursor.left,
        };
        let found = seek_row(index, rows, Each::One, end, at);
        if found.row < end {
            return cursor.at(found);
        }
        cursor = cursor.next_segment(found.left);
    }
    cursor
}

// How many hypotheses a slot's sequents have: as many as a walk passes that has more to pass than there are.
fn count_hypotheses(index: &Index, slot: Slot) -> u64
    requires { slot.row < (rows_of index.now.table.words.now).size }
    ensures { result ≡ hypothesis_count (rows_of index.now.table.words.now) slot }
{
    let most = 2 * index.table.words.len() as u64;
    let end = seek_entry(index, slot, Cursor::start(most));
    most - end.left
}

// How many entries: the hypotheses and the goal.
pub fn count_entries(index: &Index, slot: Slot) -> u64
    requires { slot.row < (rows_of index.now.table.words.now).size }
    ensures { result ≡ hypothesis_count (rows_of index.now.table.words.now) slot + 1 }
{
    count_hypotheses(index, slot) + 1
}

// Entry k of a slot's sequent, counted from 0: a hypothesis, or behind them the goal.
pub fn entry_at(index: &Index, slot: Slot, k: u64) -> Entry
    requires table_value { slot.row < (rows_of index.now.table.words.now).size }
    requires k_bound { k ≤ hypothesis_count (rows_of index.now.table.words.now) slot }
    ensures { result ≡ numbers_of (entry_at (rows_of index.now.table.words.now) slot k) }
{
    let found = seek_entry(index, slot, Cursor::start(k));
    let segment = found.segment;
    if segment < Segment::COUNT {
        return segment_entry(index, slot, segment, found.row);
    }
    goal_at(index, slot)
}

// The row of an entry.
fn entry_row(tag: u64, entry: Entry) -> Row
    ensures { result ≡ numbers_row tag entry }
{
    Row {
        tag,
        a: entry.form,
        b: entry.first,
        c: entry.second,
    }
}

// Writes rows 81 for a slot's hypotheses, and says how many bytes they are.
fn write_hypotheses(index: &Index, slot: Slot, out: &mut [u8]) -> usize
    requires table_value { slot.row < (rows_of index.now.table.words.now).size }
    requires slot_in_bounds { row_length width * hypothesis_count (rows_of index.now.table.words.now) slot ≤ length out.old }
    ensures value { result ≡ row_length width * hypothesis_count (rows_of index.now.table.words.now) slot }
    ensures out_after { out.new ≡ over (rows_bytes (hypothesis_rows (rows_of index.now.table.words.now) slot)) out.old }
{
    let mut cursor = seek_entry(index, slot, Cursor::start(0));
    let mut at = 0;
    // not counted: a turn goes on to another row or the next segment
    while cursor.segment < Segment::COUNT {
        let entry = segment_entry(index, slot, cursor.segment, cursor.row);
        entry_row(tags::HYPOTHESIS, entry).write(&mut out[at..]);
        cursor = seek_entry(index, slot, cursor.passing());
        at += Row::LENGTH;
    }
    at
}

// Writes a slot's sequent without its header: rows 81 for the hypotheses, then row 82 for the goal; and says how many bytes they are.
pub fn write_entries(index: &Index, slot: Slot, out: &mut [u8]) -> usize
    requires table_value { slot.row < (rows_of index.now.table.words.now).size }
    requires slot_in_bounds { row_length width * (hypothesis_count (rows_of index.now.table.words.now) slot + 1) ≤ length out.old }
    ensures value { result ≡ row_length width * (hypothesis_count (rows_of index.now.table.words.now) slot + 1) }
    ensures out_after { out.new ≡ over (rows_bytes (entry_rows (rows_of index.now.table.words.now) slot)) out.old }
{
    let at = write_hypotheses(index, slot, out);
    let goal = goal_at(index, slot);
    entry_row(tags::GOAL, goal).write(&mut out[at..]);
    at + Row::LENGTH
}
