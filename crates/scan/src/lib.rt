// Rows that pass a test: whether there is one before a row, the first, and between which rows they stand.
#![tactic(auto)]

mod scanned;

ghost use Rattle.std.specs.Prelude.{◌≡◌, ℕ, ◌+◌, ◌-◌, ◌^◌, ◌≤◌, ◌<◌, length, get_or, ◌&&◌, eqb, leb};
ghost use Rattle.table.specs.Names.{variant_tag};
ghost use Rattle.lists.specs.Below.{NoneBelow, some_below, first};
ghost use Rattle.table.specs.Rows.{rows_of, is_action};
ghost use Rattle.lists.specs.Choice.{pick};
ghost use Rattle.scan.specs.Query.{holds, query_tag, passes_of};
ghost use Rattle.scan.specs.Span.{Spans};
ghost use Rattle.scan.specs.declared.Query.TheVariants.{Assigns};
ghost use Rattle.scan.specs.Spans.{event_limit, identifier_limit, span_words, tag_span, action_at, Spanned, SpannedTo, ActionsTo, noted};
ghost use Rattle.scan.specs.Query.{span_tag};

pub use scanned::Scanned;
use table::{Table, a_at, b_at, event, size, tag, tag_at};

// A test of a row, with the numbers that it compares the row's with.
#[derive(Clone, Copy)]
pub enum Query {
    // an event of a machine (check 5)
    Event(u64),
    // an action, or a witness, of the same event for the same target as another row's (check 11)
    SameTarget { tag: u64, event: u64, target: u64 },
    // an initialisation of a machine (check 12)
    Initialises(u64),
    // an action of an event for a variable (check 12)
    Assigns { event: u64, target: u64 },
    // a witness of an event for an identifier (check 12)
    Witnesses { event: u64, target: u64 },
    // an event of a class (check 12)
    OfClass(u64),
    // a row of a tag (check 12)
    Tagged(u64),
}

// Whether a row with this tag and these columns passes.
fn passes(query: Query, tag: u64, a: u64, b: u64) -> bool
    ensures { result ≡ holds query tag a b }
{
    match query {
        Query::Event(machine) => (tag == tag::EVENT) & (a == machine),
        Query::SameTarget {
            tag: other,
            event,
            target,
        } => {
            ((((other == tag::BECOMES_EQUAL) | (other == tag::BECOMES_SUCH))
                & ((tag == tag::BECOMES_EQUAL) | (tag == tag::BECOMES_SUCH)))
                | ((other == tag::WITNESS) & (tag == tag::WITNESS)))
                & ((a == event) & (b == target))
        }
        Query::Initialises(machine) => ((tag == tag::EVENT) & (a == machine))
            & (b == event::INITIALISATION),
        Query::Assigns { event, target } => ((tag == tag::BECOMES_EQUAL)
            | (tag == tag::BECOMES_SUCH))
            & ((a == event) & (b == target)),
        Query::Witnesses { event, target } => (tag == tag::WITNESS)
            & ((a == event) & (b == target)),
        Query::OfClass(class) => (tag == tag::EVENT) & (b == class),
        Query::Tagged(k) => tag == k,
    }
}

// Rows among which those that pass a test stand: none is before `from`, and none at `to` or behind it.
#[derive(Clone, Copy)]
pub struct Span {
    pub from: usize,
    pub to: usize,
}

impl Span {
    // How many numbers the spans of all tags take: those of the tag k, up to the highest, stand at 2 × k and 2 × k + 1. Behind them stand the rows of the actions, one more
    // than each, for each event and identifier up to their limits; and behind those what is noted of the nodes and the events up to their limits (crate nodes).
    const ACTIONS: usize = 142;

    const ACTIONS_OF_EVENT: usize = Table::IDENTIFIERS as usize + 1;

    pub const NODES: usize = Span::ACTIONS + (Table::EVENTS as usize + 1) * Span::ACTIONS_OF_EVENT;

    pub const EVENTS: usize = Span::NODES + 3 * (Table::NODES as usize + 1);

    pub const WORDS: usize = Span::EVENTS + Table::EVENTS as usize + 1;
}

// Sets all numbers to 0.
pub fn clear(numbers: &mut [usize])
    ensures { (length numbers.new ≡ length numbers.old) × ((k : ℕ) → get_or numbers.new k 0 ≡ 0) }
{
    numbers.fill(0);
}

// Where a span starts with row i: there if it ends at 0, so that it has no row yet.
fn started(from: usize, to: usize, i: usize) -> usize
    ensures { result ≡ pick (eqb to 0) i from }
{
    if to == 0 { i } else { from }
}

// Notes that row i has a tag.
fn note(spans: &mut [usize], tag: u64, i: usize)
    requires { (length spans.old ≡ span_words) × (tag ≤ variant_tag) × (i < 2 ^ 63) }
    ensures { spans.new ≡ noted spans.old tag i }
{
    let from = 2 * tag as usize;
    let to = from + 1;
    spans[from] = started(spans[from], spans[to], i);
    spans[to] = i + 1;
}

// Notes the tag of row i; a 52 is also one of the actions, under 51.
fn note_row(words: &[u64], spans: &mut [usize], i: usize)
    requires { SpannedTo (rows_of words.now) i spans.old × ActionsTo (rows_of words.now) 0 spans.old × (i < 2 ^ 63) }
    ensures { SpannedTo (rows_of words.now) (i + 1) spans.new × ActionsTo (rows_of words.now) 0 spans.new }
{
    let tag = tag_at(words, i);
    if tag::VARIANT < tag {
        return;
    }
    note(spans, tag, i);
    if tag == tag::BECOMES_SUCH {
        note(spans, tag::BECOMES_EQUAL, i);
    }
}

// Where the action of an event for an identifier is noted.
fn action_at(event: u64, target: u64) -> usize
    requires { (event ≤ event_limit) × (target ≤ identifier_limit) }
    ensures value { result ≡ action_at event target }
    ensures upper_bound { result < span_words }
{
    Span::ACTIONS + (Span::ACTIONS_OF_EVENT * event as usize + target as usize)
}

// What is noted when row i passes: it, where none was noted before.
fn first_noted(noted: usize, i: usize) -> usize
    requires { i < 2 ^ 63 }
    ensures { result ≡ pick (eqb noted 0) (i + 1) noted }
{
    if noted == 0 { i + 1 } else { noted }
}

// Whether row i is an action of an event for an identifier up to their limits.
fn is_noted(words: &[u64], i: usize) -> bool
    ensures { result ≡ (is_action (rows_of words.now) i && (leb ((rows_of words.now).a i) event_limit && leb ((rows_of words.now).b i) identifier_limit)) }
{
    let tag = tag_at(words, i);
    let event = a_at(words, i);
    let target = b_at(words, i);
    ((tag == tag::BECOMES_EQUAL) | (tag == tag::BECOMES_SUCH))
        & ((event <= Table::EVENTS) & (target <= Table::IDENTIFIERS))
}

// Notes row i where it is an action, the first of its event for its variable.
fn note_action(words: &[u64], spans: &mut [usize], i: usize)
    requires { SpannedTo (rows_of words.now) (rows_of words.now).size spans.old × ActionsTo (rows_of words.now) i spans.old × (i < 2 ^ 63) }
    ensures { SpannedTo (rows_of words.now) (rows_of words.now).size spans.new × ActionsTo (rows_of words.now) (i + 1) spans.new }
{
    if !is_noted(words, i) {
        return;
    }
    let at = action_at(a_at(words, i), b_at(words, i));
    spans[at] = first_noted(spans[at], i);
}

// Notes the actions of a table's rows.
fn fill_actions(words: &[u64], spans: &mut [usize])
    requires { SpannedTo (rows_of words.now) (rows_of words.now).size spans.old × ActionsTo (rows_of words.now) 0 spans.old }
    ensures { Spanned (rows_of words.now) spans.new }
{
    for i in 0..size(words) {
        note_action(words, spans, i);
    }
}

// Finds the spans of all tags by one pass over the rows, in every table, sorted or not.
fn fill_tags(words: &[u64], spans: &mut [usize])
    requires { length spans.old ≡ span_words }
    ensures { SpannedTo (rows_of words.now) (rows_of words.now).size spans.new × ActionsTo (rows_of words.now) 0 spans.new }
{
    clear(spans);
    for i in 0..size(words) {
        note_row(words, spans, i);
    }
}

// Fills the spans of a table's rows, and the rows of its actions.
pub fn fill_spans(words: &[u64], spans: &mut [usize])
    requires { length spans.old ≡ span_words }
    ensures { Spanned (rows_of words.now) spans.new }
{
    fill_tags(words, spans);
    fill_actions(words, spans);
}

// The tag under which the rows of a tag stand: 51 of 52.
pub fn span_tag(tag: u64) -> u64
    ensures { result ≡ span_tag tag }
{
    if tag == tag::BECOMES_SUCH {
        return tag::BECOMES_EQUAL;
    }
    tag
}

// The rows between which those of a tag stand; of 51, those of 51 and 52.
pub fn span_at(words: &[u64], spans: &[usize], tag: u64) -> Span
    requires { (tag ≤ variant_tag) × Spanned (rows_of words.now) spans.now }
    ensures { result ≡ tag_span (rows_of words.now) tag }
{
    let at = 2 * tag as usize;
    Span {
        from: spans[at],
        to: spans[at + 1],
    }
}

// The first row that passes, or the number of rows, where all that pass are known to stand in a span.
pub fn find_within(words: &[u64], query: Query, span: Span) -> usize
    requires { Spans (passes_of (rows_of words.now) query) (rows_of words.now).size span }
    ensures { result ≡ first (passes_of (rows_of words.now) query) (rows_of words.now).size 0 }
{
    for i in span.from..span.to {
        if passes(query, tag_at(words, i), a_at(words, i), b_at(words, i)) {
            return i;
        }
    }
    size(words)
}

// The row that is noted, or the number of rows.
fn noted_row(noted: usize, rows: usize) -> usize
    ensures { result ≡ pick (eqb noted 0) rows (noted - 1) }
{
    if noted == 0 {
        return rows;
    }
    noted - 1
}

// The row of an event's action for an identifier, or the number of rows. Beyond the limits, which no accepted table is, it is looked for.
pub fn action_row(words: &[u64], spans: &[usize], event: u64, target: u64) -> usize
    requires { Spanned (rows_of words.now) spans.now }
    ensures { result ≡ first (passes_of (rows_of words.now) (Assigns event target)) (rows_of words.now).size 0 }
{
    if (event <= Table::EVENTS) & (target <= Table::IDENTIFIERS) {
        let at = action_at(event, target);
        return noted_row(spans[at], size(words));
    }
    let actions = span_at(words, spans, tag::BECOMES_EQUAL);
    find_within(words, Query::Assigns { event, target }, actions)
}

// Whether one of the rows before the end of a span passes, where none before it does.
fn some_within(words: &[u64], query: Query, span: Span) -> bool
    requires { NoneBelow (passes_of (rows_of words.now) query) span.from }
    ensures { result ≡ some_below (passes_of (rows_of words.now) query) span.to }
{
    for i in span.from..span.to {
        if passes(query, tag_at(words, i), a_at(words, i), b_at(words, i)) {
            return true;
        }
    }
    false
}

// The tag under which the rows that pass stand.
fn query_tag(query: Query) -> u64
    ensures { result ≡ query_tag query }
{
    match query {
        Query::Event(machine) => tag::EVENT,
        Query::SameTarget { tag, event, target } => span_tag(tag),
        Query::Initialises(machine) => tag::EVENT,
        Query::Assigns { event, target } => tag::BECOMES_EQUAL,
        Query::Witnesses { event, target } => tag::WITNESS,
        Query::OfClass(class) => tag::EVENT,
        Query::Tagged(k) => k,
    }
}

// Whether one of the rows before row n passes. Of these only those are read between which the rows of the query's tag stand.
pub fn some_row(words: &[u64], spans: &[usize], query: Query, n: usize) -> bool
    requires { Spanned (rows_of words.now) spans.now × (n ≤ (rows_of words.now).size) × (query_tag query ≤ variant_tag) }
    ensures { result ≡ some_below (passes_of (rows_of words.now) query) n }
{
    let span = span_at(words, spans, query_tag(query));
    let from = span.from;
    let to = n.min(span.to);
    some_within(words, query, Span { from, to })
}

// The first row that passes, or the number of rows.
pub fn find_row(words: &[u64], query: Query) -> usize
    ensures { result ≡ first (passes_of (rows_of words.now) query) (rows_of words.now).size 0 }
{
    let all = Span {
        from: 0,
        to: size(words),
    };
    find_within(words, query, all)
}
