// What is noted once for a table, behind the spans of its tags: of each node the sets of the identifiers that its formula and its well-definedness mention
// and whether it divides, and of each event the set of those that it assigns.
#![tactic(auto)]

mod index;

ghost use Rattle.std.specs.Prelude.{◌≡◌, ◌&&◌, ◌+◌, ◌≤◌, ◌<◌, leb, length};
ghost use Rattle.table.specs.Rows.{rows_of, is_action};
ghost use Rattle.machine.specs.Described.{tree_of};
ghost use Rattle.scan.specs.Spans.{event_limit, events_at, span_words};
ghost use Rattle.notes.specs.Notes.{note_of};
ghost use Rattle.nodes.specs.Notes.{node_limit, note_in, noted_tree, assigned_set, Noted, touches};
ghost use Rattle.nodes.specs.Steps.{stored, Cleared, NotedTo};

use conditions::find_condition;
pub use index::{Index, NotedRows};
use notes::{Note, empty_note, shaped_note};
use operators::find_operator;
use scan::{Span, fill_spans, span_at};
use sets::{meets, single};
use table::{Counted, Table, a_at, b_at, one_if, operand, tag, tag_at};

// The note of node n, as it is stored: three numbers.
fn load(spans: &[usize], n: u64) -> Note
    requires { (length spans.now ≡ span_words) × (n ≤ node_limit) }
    ensures { result ≡ note_in spans.now n }
{
    let at = 3 * n as usize;
    Note {
        mentioned: spans[Span::NODES + at] as u64,
        defined: spans[Span::NODES + (at + 1)] as u64,
        divides: spans[Span::NODES + (at + 2)] == 1,
    }
}

fn store(spans: &mut [usize], n: u64, note: Note)
    requires { (length spans.old ≡ span_words) × (n ≤ node_limit) }
    ensures { spans.new ≡ stored spans.old n note }
{
    let at = 3 * n as usize;
    spans[Span::NODES + at] = note.mentioned as usize;
    spans[Span::NODES + (at + 1)] = note.defined as usize;
    spans[Span::NODES + (at + 2)] = one_if(note.divides) as usize;
}

// Where the set of an event stands.
fn event_at(event: u64) -> usize
    requires { event ≤ event_limit }
    ensures value { result ≡ events_at + event }
    ensures upper_bound { result < span_words }
{
    Span::EVENTS + event as usize
}

// Sets the numbers behind the spans to 0, and leaves those before.
fn clear_notes(spans: &mut [usize])
    requires { length spans.old ≡ span_words }
    ensures { Cleared spans.old spans.new }
{
    spans[Span::NODES..].fill(0);
}

// Whether row i is an action of an event up to the limit.
fn is_noted(words: &[u64], i: usize) -> bool
    ensures { result ≡ (is_action (rows_of words.now) i && leb ((rows_of words.now).a i) event_limit) }
{
    let tag = tag_at(words, i);
    let event = a_at(words, i);
    ((tag == tag::BECOMES_EQUAL) | (tag == tag::BECOMES_SUCH)) & (event <= Table::EVENTS)
}

// Notes row i where it is an action: its event assigns one identifier more.
fn note_action(words: &[u64], spans: &mut [usize], i: usize)
    requires { NotedTo (rows_of words.now) 1 i spans.old }
    ensures { NotedTo (rows_of words.now) 1 (i + 1) spans.new }
{
    if !is_noted(words, i) {
        return;
    }
    let at = event_at(a_at(words, i));
    let target = single(b_at(words, i));
    spans[at] = spans[at] | target as usize;
}

// Notes the actions, which stand in the span of their tag.
fn note_actions(words: &[u64], spans: &mut [usize])
    requires { NotedTo (rows_of words.now) 1 0 spans.old }
    ensures { NotedTo (rows_of words.now) 1 (rows_of words.now).size spans.new }
{
    let actions = span_at(words, spans, tag::BECOMES_EQUAL);
    for i in actions.from..actions.to {
        note_action(words, spans, i);
    }
}

// The note of node n, from its row and the notes of its operands, which come before it.
fn make_note(table: &Counted, spans: &[usize], n: u64) -> Note
    requires { (1 ≤ n) × (n ≤ node_limit) × NotedTo (rows_of table.now.words.now) n (rows_of table.now.words.now).size spans.now }
    ensures { result ≡ note_of (tree_of (rows_of table.now.words.now) n) }
{
    let operator = table.node_field(n, Table::OPERATOR);
    let b = table.node_field(n, Table::LEFT);
    let c = table.node_field(n, Table::RIGHT);
    let found = find_operator(operator);
    let shape = found.shape;
    let condition = find_condition(operator);
    let left = load(spans, operand(n, b));
    let right = load(spans, operand(n, c));
    shaped_note(shape, condition, b, left, right)
}

// Notes node n.
fn note_node(table: &Counted, spans: &mut [usize], n: u64)
    requires { (1 ≤ n) × (n ≤ node_limit) × NotedTo (rows_of table.now.words.now) n (rows_of table.now.words.now).size spans.old }
    ensures { NotedTo (rows_of table.now.words.now) (n + 1) (rows_of table.now.words.now).size spans.new }
{
    let made = make_note(table, spans, n);
    store(spans, n, made);
}

// Notes the nodes up to the limit, operands first.
fn note_nodes(table: &Counted, spans: &mut [usize])
    requires { NotedTo (rows_of table.now.words.now) 1 (rows_of table.now.words.now).size spans.old }
    ensures { Noted (rows_of table.now.words.now) spans.new }
{
    let last = table.counts.nodes.min(Table::NODES);
    for n in 1..=last {
        note_node(table, spans, n);
    }
}

// Fills the spans of a table's rows and notes its nodes and events.
pub fn fill_notes(table: &Counted, spans: &mut [usize])
    requires { length spans.old ≡ span_words }
    ensures { Noted (rows_of table.now.words.now) spans.new }
{
    fill_spans(table.words, spans);
    clear_notes(spans);
    note_actions(table.words, spans);
    note_nodes(table, spans);
}

// What is noted of node n; above the limit, which no accepted table has, nothing.
pub fn note_at(rows: &NotedRows, n: u64) -> Note
    ensures { result ≡ note_of (noted_tree (rows_of rows.now.words.now) n) }
{
    if Table::NODES < n {
        return empty_note();
    }
    load(rows.spans, n)
}

// The set of the identifiers that an event assigns.
pub fn assigned_by(rows: &NotedRows, event: u64) -> u64
    ensures { result ≡ assigned_set (rows_of rows.now.words.now) event }
{
    if Table::EVENTS < event {
        return 0;
    }
    let at = event_at(event);
    rows.spans[at] as u64
}

// Whether an event assigns an identifier that the formula of node n mentions.
pub fn touches(rows: &NotedRows, event: u64, n: u64) -> bool
    ensures { result ≡ touches (rows_of rows.now.words.now) event n }
{
    let noted = note_at(rows, n);
    let assigned = assigned_by(rows, event);
    meets(noted.mentioned, assigned)
}
