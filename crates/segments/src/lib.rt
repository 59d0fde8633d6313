// 01, Sequents, columns "hypotheses" and "goal": which hypotheses a slot's sequents have, as a table of segments, and which goal, by kind.
#![tactic(auto)]

ghost use Rattle.std.specs.Prelude.{◌≡◌, ◌<◌, not};
ghost use Rattle.table.specs.Rows.{rows_of};
ghost use Rattle.table.specs.Names.{guard_tag};
ghost use Rattle.select.specs.declared.Selection.TheVariants.{Tagged, OfEvent};
ghost use Rattle.sequent.specs.Numbers.{numbers, numbers_of, written_form, moves_form};
ghost use Rattle.select.specs.declared.Item.TheVariants.{A as column_a, B as column_b, Identifier};
ghost use Rattle.groups.specs.Groups.{when, guard_group};
ghost use Rattle.segments.specs.Segments.{segment_of, sim_goal, variant_goal, goal_of, up_to, of_none, has_abstract, has_concrete, has_moves, has_witnesses, has_abstract_moves, witness_rows};
ghost use Rattle.segments.specs.Segments.{segment_at, segment_entry};

use events::{is_abstract, is_convergent, is_initial, is_new, matched_by, own_kind};
use groups::{Group, when};
use nodes::Index;
use select::{Item, Selection, item_at};
use sequent::{Entry, form, kind};
use table::{Counted, identifier, size, tag};
use walk::Slot;

// "those before it": in one group only rows before the slot's own.
fn up_to(words: &[u64], slot: Slot, group: u64) -> usize
    ensures { result ≡ up_to (rows_of words.now) slot group }
{
    if slot.group == group {
        return slot.row;
    }
    size(words)
}

// Whether a slot is of no event.
fn of_none(slot: Slot) -> bool
    ensures { result ≡ of_none slot }
{
    slot.group < Group::GUARD
}

// "except for initialisations, the abstract invariants"
fn has_abstract(table: &Counted, slot: Slot) -> bool
    ensures { result ≡ has_abstract (rows_of table.now.words.now) slot }
{
    if of_none(slot) {
        return Group::ABSTRACT_INVARIANT <= slot.group;
    }
    !is_initial(table, slot.event)
}

// "and, for concrete events, the concrete ones"
fn has_concrete(table: &Counted, slot: Slot) -> bool
    ensures { result ≡ has_concrete (rows_of table.now.words.now) slot }
{
    if of_none(slot) {
        return Group::CONCRETE_INVARIANT <= slot.group;
    }
    !is_initial(table, slot.event) & !is_abstract(table, slot.event)
}

// SIM, INV, VAR, and "moves for a variable witness".
fn has_moves(table: &Counted, slot: Slot) -> bool
    ensures { result ≡ has_moves (rows_of table.now.words.now) slot }
{
    let group = slot.group;
    let variable = table.is_variable(table.b_at(slot.row));
    ((group == Group::SIM) | ((group == Group::INV) | (group == Group::VAR)))
        | ((group == Group::WITNESS) & variable)
}

// SIM and INV, but of a convergent or anticipated event.
fn has_witnesses(table: &Counted, slot: Slot) -> bool
    ensures { result ≡ has_witnesses (rows_of table.now.words.now) slot }
{
    let group = slot.group;
    ((group == Group::SIM) | (group == Group::INV)) & !is_new(table, slot.event)
}

// "for a convergent event form 4 of each abstract variable instead of witnesses", and so for an anticipated one; a shared variable's is among the moves
fn has_abstract_moves(table: &Counted, slot: Slot) -> bool
    ensures { result ≡ has_abstract_moves (rows_of table.now.words.now) slot }
{
    (slot.group == Group::INV) & is_new(table, slot.event)
}

// Its witnesses; of GRD "parameter witnesses".
fn witness_rows(table: &Counted, slot: Slot) -> Selection
    ensures { result ≡ witness_rows (rows_of table.now.words.now) slot }
{
    let event = slot.event;
    if slot.group == Group::GRD {
        return Selection::ForParameters(event);
    }
    let witnesses = Selection::OfEvent {
        tag: tag::WITNESS,
        event,
    };
    when(has_witnesses(table, slot), witnesses)
}

// A part of the hypotheses: an entry for each row of a selection before a row, of a form and with a number from the row.
#[derive(Clone, Copy)]
pub struct Segment {
    pub rows: Selection,
    pub before: usize,
    pub form: u64,
    pub item: Item,
}

impl Segment {
    // The segments in the order of the hypotheses. Numbers, not an enum: the walk counts on from one to the next, and `segment_at` is a list.
    pub const AXIOMS: u64 = 0;

    pub const ABSTRACT_INVARIANTS: u64 = 1;

    pub const CONCRETE_INVARIANTS: u64 = 2;

    pub const GUARDS: u64 = 3;

    pub const MOVES: u64 = 4;

    pub const WITNESSES: u64 = 5;

    pub const ABSTRACT_MOVES: u64 = 6;

    pub const COUNT: u64 = 7;

    fn new(rows: Selection, before: usize, form: u64, item: Item) -> Self
        ensures { result ≡ segment_of rows before form item }
    {
        Self {
            rows,
            before,
            form,
            item,
        }
    }
}

// The axioms or invariants of a tag, where a slot has them, up to the row of a slot of their own group.
fn formulas(words: &[u64], slot: Slot, has: bool, tag: u64, group: u64) -> Segment
    ensures { result ≡ segment_of (when has (Tagged tag)) (up_to (rows_of words.now) slot group) written_form column_a }
{
    let rows = when(has, Selection::Tagged(tag));
    Segment::new(rows, up_to(words, slot, group), form::WRITTEN, Item::A)
}

// The guards of an event, up to the slot's own where it is of a guard.
fn guards(words: &[u64], slot: Slot) -> Segment
    ensures { result ≡ segment_of (when (not (of_none slot)) (OfEvent guard_tag slot.event)) (up_to (rows_of words.now) slot guard_group) written_form column_b }
{
    let event = slot.event;
    let guards = Selection::OfEvent {
        tag: tag::GUARD,
        event,
    };
    let rows = when(!of_none(slot), guards);
    Segment::new(
        rows,
        up_to(words, slot, Group::GUARD),
        form::WRITTEN,
        Item::B,
    )
}

// The moves of an event for some variables.
fn moves(words: &[u64], has: bool, variables: Selection) -> Segment
    ensures { result ≡ segment_of (when has variables) (rows_of words.now).size moves_form Identifier }
{
    let rows = when(has, variables);
    Segment::new(rows, size(words), form::MOVES, Item::Identifier)
}

// A segment of a slot, by number: the table of segments.
pub fn segment_at(table: &Counted, slot: Slot, segment: u64) -> Segment
    ensures { result ≡ segment_at (rows_of table.now.words.now) slot segment }
{
    match segment {
        Segment::AXIOMS => formulas(table.words, slot, true, tag::AXIOM, Group::AXIOM),
        Segment::ABSTRACT_INVARIANTS => formulas(
            table.words,
            slot,
            has_abstract(table, slot),
            tag::ABSTRACT_INVARIANT,
            Group::ABSTRACT_INVARIANT,
        ),
        Segment::CONCRETE_INVARIANTS => formulas(
            table.words,
            slot,
            has_concrete(table, slot),
            tag::CONCRETE_INVARIANT,
            Group::CONCRETE_INVARIANT,
        ),
        Segment::GUARDS => guards(table.words, slot),
        Segment::MOVES => moves(
            table.words,
            has_moves(table, slot),
            Selection::Variables(own_kind(table, slot.event)),
        ),
        Segment::WITNESSES => Segment::new(
            witness_rows(table, slot),
            table.size(),
            form::WRITTEN,
            Item::C,
        ),
        Segment::ABSTRACT_MOVES => moves(
            table.words,
            has_abstract_moves(table, slot),
            Selection::Identifiers(identifier::ABSTRACT_VARIABLE),
        ),
        _ => Segment::new(Selection::None, 0, form::WRITTEN, Item::A),
    }
}

// An entry of one number, a root or a variable: its form, the number, then 0.
fn of_one(form: u64, number: u64) -> Entry
    ensures { result ≡ numbers form number 0 }
{
    Entry {
        form,
        first: number,
        second: 0,
    }
}

// An entry of an event and an identifier.
fn of_event(form: u64, event: u64, x: u64) -> Entry
    ensures { result ≡ numbers form event x }
{
    Entry {
        form,
        first: event,
        second: x,
    }
}

// The goal of SIM: form 10 of a convergent or anticipated event, else form 4 of the event that its steps are matched by.
fn sim_goal(table: &Counted, event: u64, x: u64) -> Entry
    ensures { result ≡ numbers_of (sim_goal (rows_of table.now.words.now) event x) }
{
    if is_new(table, event) {
        return of_one(form::UNCHANGED, x);
    }
    of_event(form::MOVES, matched_by(table, event), x)
}

// The goal of VAR: form 8 of a convergent event, form 9 of an anticipated one.
fn variant_goal(table: &Counted, event: u64, root: u64) -> Entry
    ensures { result ≡ numbers_of (variant_goal (rows_of table.now.words.now) event root) }
{
    if is_convergent(table, event) {
        return of_one(form::DECREASES, root);
    }
    of_one(form::NOT_INCREASED, root)
}

// The goal of a kind, for an event and an item.
pub fn goal_of(table: &Counted, kind: u64, event: u64, item: u64) -> Entry
    ensures { result ≡ numbers_of (goal_of (rows_of table.now.words.now) kind event item) }
{
    match kind {
        kind::INV => of_one(form::PRIMED, item),
        kind::FIS => of_event(form::FEASIBLE, event, item),
        kind::GRD => of_one(form::WRITTEN, item),
        kind::SIM => sim_goal(table, event, item),
        kind::WFIS => of_event(form::WITNESSED, event, item),
        kind::NAT => of_one(form::NATURAL, item),
        kind::VAR => variant_goal(table, event, item),
        _ => of_one(form::DEFINED, item),
    }
}

// The entry of row j in a segment.
pub fn segment_entry(index: &Index, slot: Slot, segment: u64, j: usize) -> Entry
    requires { j < (rows_of index.now.table.words.now).size }
    ensures { result ≡ numbers_of (segment_entry (rows_of index.now.table.words.now) slot segment j) }
{
    let part = segment_at(&index.table, slot, segment);
    let item = part.item;
    let x = item_at(index, item, slot.event, j);
    if part.form == form::MOVES {
        return of_event(form::MOVES, slot.event, x);
    }
    of_one(form::WRITTEN, x)
}
