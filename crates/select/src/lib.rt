// The rows that a group of sequents, or a part of the hypotheses, is made from: which rows they are, and a walk from one to the next.
#![tactic(auto)]

ghost use Rattle.std.specs.Prelude.{◌≡◌, ◌+◌, ◌≤◌, ◌<◌, ◌&&◌};
ghost use Rattle.table.specs.Rows.{rows_of, count};
ghost use Rattle.select.specs.Selection.{row_of_event, parameter_witness, identifier_at, variable_at, action_row, is_assigned, becomes_such, selects, between, section_span, selected_span};
ghost use Rattle.select.specs.Each.{item_at, divisions, weight, count_at};
ghost use Rattle.select.specs.Sought.{Passed};

use nodes::{Index, note_at, touches};
use scan::Span;
use table::{Counted, Table, a_at, is_variable_of, one_if, tag, tag_at};

// Rows of a tag; or the rows 0, 1, .. in their stead that stand for the identifiers 1, 2, ..
#[derive(Clone, Copy)]
pub enum Selection {
    // no row
    None,
    // the rows of a tag
    Tagged(u64),
    // those that belong to an event
    OfEvent { tag: u64, event: u64 },
    // an event's witnesses for parameters
    ForParameters(u64),
    // the identifiers of a kind
    Identifiers(u64),
    // the variables of the machine whose own have a kind, and so the shared ones too
    Variables(u64),
    // those that an event has an action for
    Assigned { kind: u64, event: u64 },
    // those that it has a 52 for
    SuchThat { kind: u64, event: u64 },
}

// Whether a row of a tag belongs to an event.
fn row_of_event(words: &[u64], tag: u64, event: u64, j: usize) -> bool
    ensures { result ≡ row_of_event (rows_of words.now) tag event j }
{
    (tag_at(words, j) == tag) & (a_at(words, j) == event)
}

// Whether it is an event's witness for a parameter.
fn parameter_witness(table: &Counted, event: u64, j: usize) -> bool
    ensures { result ≡ parameter_witness (rows_of table.now.words.now) event j }
{
    !table.is_variable(table.b_at(j)) & row_of_event(table.words, tag::WITNESS, event, j)
}

// Whether there is an identifier j + 1, of a kind.
fn identifier_at(table: &Counted, kind: u64, j: usize) -> bool
    ensures { result ≡ identifier_at (rows_of table.now.words.now) kind j }
{
    let x = j as u64;
    if x < table.counts.identifiers {
        return table.identifier_field(x + 1, Table::KIND) == kind;
    }
    false
}

// Whether that identifier is a variable of the machine whose own have a kind.
fn variable_at(table: &Counted, own: u64, j: usize) -> bool
    ensures { result ≡ variable_at (rows_of table.now.words.now) own j }
{
    let x = j as u64;
    if x < table.counts.identifiers {
        return is_variable_of(own, table.identifier_field(x + 1, Table::KIND));
    }
    false
}

// The row of an event's action for a variable; the number of rows where it is unassigned.
pub fn action_row(index: &Index, event: u64, x: u64) -> usize
    ensures { result ≡ action_row (rows_of index.now.table.words.now) event x }
{
    index.action_row(event, x)
}

// Whether it is assigned.
fn is_assigned(index: &Index, event: u64, x: u64) -> bool
    ensures { result ≡ is_assigned (rows_of index.now.table.words.now) event x }
{
    action_row(index, event, x) < index.table.size()
}

// Whether that action is a 52.
fn becomes_such(index: &Index, event: u64, x: u64) -> bool
    ensures { result ≡ becomes_such (rows_of index.now.table.words.now) event x }
{
    let row = action_row(index, event, x);
    (row < index.table.size()) & !(index.table.tag_at(row) == tag::BECOMES_EQUAL)
}

// Whether row j stands for a variable that an event has an action for.
fn assigned_at(index: &Index, kind: u64, event: u64, j: usize) -> bool
    ensures { result ≡ variable_at (rows_of index.now.table.words.now) kind j && is_assigned (rows_of index.now.table.words.now) event (j + 1) }
{
    if variable_at(&index.table, kind, j) {
        return is_assigned(index, event, j as u64 + 1);
    }
    false
}

// The same of a 52.
fn such_at(index: &Index, kind: u64, event: u64, j: usize) -> bool
    ensures { result ≡ variable_at (rows_of index.now.table.words.now) kind j && becomes_such (rows_of index.now.table.words.now) event (j + 1) }
{
    if variable_at(&index.table, kind, j) {
        return becomes_such(index, event, j as u64 + 1);
    }
    false
}

// Whether a selection has the row j.
pub fn selects(index: &Index, selection: Selection, j: usize) -> bool
    ensures { result ≡ selects (rows_of index.now.table.words.now) selection j }
{
    match selection {
        Selection::None => false,
        Selection::Tagged(tag) => index.table.tag_at(j) == tag,
        Selection::OfEvent { tag, event } => row_of_event(index.table.words, tag, event, j),
        Selection::ForParameters(event) => parameter_witness(&index.table, event, j),
        Selection::Identifiers(kind) => identifier_at(&index.table, kind, j),
        Selection::Variables(own) => variable_at(&index.table, own, j),
        Selection::Assigned { kind, event } => assigned_at(index, kind, event, j),
        Selection::SuchThat { kind, event } => such_at(index, kind, event, j),
    }
}

// The rows between which those of a tag stand; of a number that is no tag, all.
fn section_span(index: &Index, tag: u64) -> Span
    ensures { result ≡ section_span (rows_of index.now.table.words.now) tag }
{
    if tag <= tag::VARIANT {
        return index.span_at(tag);
    }
    Span {
        from: 0,
        to: index.table.size(),
    }
}

// The rows 0, 1, .. that stand for the identifiers.
fn identifier_span(table: &Counted) -> Span
    ensures { result ≡ between 0 (count (rows_of table.now.words.now) 10) }
{
    Span {
        from: 0,
        to: table.counts.identifiers as usize,
    }
}

// The rows between which a selection's stand.
fn selected_span(index: &Index, selection: Selection) -> Span
    ensures { result ≡ selected_span (rows_of index.now.table.words.now) selection }
{
    match selection {
        Selection::None => Span { from: 0, to: 0 },
        Selection::Tagged(tag) => section_span(index, tag),
        Selection::OfEvent { tag, event } => section_span(index, tag),
        Selection::ForParameters(event) => section_span(index, tag::WITNESS),
        Selection::Identifiers(kind) => identifier_span(&index.table),
        Selection::Variables(own) => identifier_span(&index.table),
        Selection::Assigned { kind, event } => identifier_span(&index.table),
        Selection::SuchThat { kind, event } => identifier_span(&index.table),
    }
}

// What the item of a row 80, or the number of an entry, is: a column of a row, the root of the action for the identifier that the row stands for, or that identifier.
#[derive(Clone, Copy)]
pub enum Item {
    A,
    B,
    C,
    Action,
    Identifier,
}

// The item that row i gives.
pub fn item_at(index: &Index, item: Item, event: u64, i: usize) -> u64
    requires { i < (rows_of index.now.table.words.now).size }
    ensures { result ≡ item_at (rows_of index.now.table.words.now) item event i }
{
    match item {
        Item::A => index.table.a_at(i),
        Item::B => index.table.b_at(i),
        Item::C => index.table.c_at(i),
        Item::Action => index.table.c_at(action_row(index, event, i as u64 + 1)),
        Item::Identifier => i as u64 + 1,
    }
}

// How many sequents, or entries, there are of a row of a selection.
#[derive(Clone, Copy)]
pub enum Each {
    // one
    One,
    // WD, where the formula divides
    Defined { item: Item, event: u64 },
    // WFIS, and before it WD, where the witness divides
    Witness,
    // INV, where the event assigns what the invariant mentions
    Touched(u64),
}

// One where the formula of a node divides.
pub fn divisions(index: &Index, n: u64) -> u64
    ensures value { result ≡ divisions (rows_of index.now.table.words.now) n }
    ensures upper_bound { result ≤ 1 }
{
    let note = note_at(&index.rows(), n);
    one_if(note.divides)
}

// How many there are of row i.
fn weight(index: &Index, each: Each, i: usize) -> u64
    requires { i < (rows_of index.now.table.words.now).size }
    ensures { result ≡ weight (rows_of index.now.table.words.now) each i }
{
    match each {
        Each::One => 1,
        Each::Defined { item, event } => { divisions(index, item_at(index, item, event, i)) }
        Each::Witness => divisions(index, index.table.c_at(i)) + 1,
        Each::Touched(event) => one_if(touches(&index.rows(), event, index.table.a_at(i))),
    }
}

// The same of a row of a selection, and none of another.
fn count_at(index: &Index, rows: Selection, each: Each, i: usize) -> u64
    requires { i < (rows_of index.now.table.words.now).size }
    ensures { result ≡ count_at (rows_of index.now.table.words.now) rows each i }
{
    if selects(index, rows, i) {
        return weight(index, each, i);
    }
    0
}

// A row, and how many of the sequents or entries from it on are still to be passed over.
#[derive(Clone, Copy)]
pub struct Sought {
    pub row: usize,
    pub left: u64,
}

// Walks on from a row, counting what there is of each selected row, until what is left to pass over lies in one, or to the end. It looks at no row outside the selection's
// span.
pub fn seek_row(index: &Index, rows: Selection, each: Each, end: usize, from: Sought) -> Sought
    requires { (from.row ≤ end) × (end ≤ (rows_of index.now.table.words.now).size) }
    ensures { Passed (count_at (rows_of index.now.table.words.now) rows each) end from result }
{
    let span = selected_span(index, rows);
    let last = span.to.min(end);
    let start = from.row.max(span.from).min(end);
    let mut left = from.left;
    for row in start..last {
        let count = count_at(index, rows, each, row);
        if left < count {
            return Sought { row, left };
        }
        left -= count;
    }
    Sought { row: end, left }
}
