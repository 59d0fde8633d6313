// 01, refusal 7, reference: "unknown operator, nonzero unused node column, or a number that names nothing fitting". Rows are words, four a row.
#![tactic(auto)]

ghost use Rattle.std.specs.Prelude.{◌≡◌};
ghost use Rattle.table.specs.Rows.{rows_of};
ghost use Rattle.rules.specs.Rules.{earlier_node, named_variable, good_columns, guard_event, action_target, witness_target, root_at, names_root, good_target, reference_offends};
ghost use Rattle.operators.specs.Operator.{meant_shape};

use operators::{Shape, find_operator};
use table::{
    Counted, Table, a_at, among, b_at, c_at, event, identifier, tag, tag_at, variable_kind,
};

// Whether the row at i may have the node n as an operand: "an earlier node".
pub fn earlier_node(table: &Counted, i: usize, n: u64) -> bool
    ensures { result ≡ earlier_node (rows_of table.now.words.now) i n }
{
    let row = i as u64;
    let start = table.counts.nodes_start;
    if row < start {
        return false;
    }
    among(n, row - start)
}

pub fn named_variable(table: &Counted, x: u64) -> bool
    ensures { result ≡ named_variable (rows_of table.now.words.now) x }
{
    table.named_identifier(x) & table.is_variable(x)
}

// Whether the columns of the node at row i fit the shape of its operator.
fn good_columns(table: &Counted, shape: Shape, i: usize) -> bool
    ensures { result ≡ good_columns (rows_of table.now.words.now) (meant_shape shape) i }
{
    let b = table.b_at(i);
    let c = table.c_at(i);
    match shape {
        Shape::Value => c == 0,
        Shape::Identifier => table.named_identifier(b) & (c == 0),
        Shape::Variable => named_variable(table, b) & (c == 0),
        Shape::NoOperand => (b == 0) & (c == 0),
        Shape::OneOperand => earlier_node(table, i, b) & (c == 0),
        Shape::TwoOperands => earlier_node(table, i, b) & earlier_node(table, i, c),
        Shape::Unknown => false,
    }
}

// "guards: class not 0"
fn guard_event(table: &Counted, e: u64) -> bool
    ensures { result ≡ guard_event (rows_of table.now.words.now) e }
{
    let named = table.named_event(e);
    let class = table.event_field(e, Table::CLASS);
    named & !(class == event::INITIALISATION)
}

// Actions: "event, variable of its machine"; 02, request 2: "both machines' events may assign it".
fn action_target(table: &Counted, e: u64, x: u64) -> bool
    ensures { result ≡ action_target (rows_of table.now.words.now) e x }
{
    let event = table.named_event(e);
    let identifier = table.named_identifier(x);
    let kind = table.identifier_field(x, Table::KIND);
    let machine = table.event_field(e, Table::MACHINE);
    let fits = variable_kind(kind, machine);
    event & (identifier & fits)
}

// "witnesses: class 0 or 1, with an abstract variable or a parameter of the refined event"; 02, request 2: a shared variable "has no witness"
fn witness_target(table: &Counted, e: u64, x: u64) -> bool
    ensures { result ≡ witness_target (rows_of table.now.words.now) e x }
{
    let event = table.named_event(e);
    let machine = table.event_field(e, Table::MACHINE);
    let class = table.event_field(e, Table::CLASS);
    let refined = table.event_field(e, Table::REFINED);
    let identifier = table.named_identifier(x);
    let kind = table.identifier_field(x, Table::KIND);
    let owner = table.identifier_field(x, Table::OWNER);
    (event & ((machine == event::CONCRETE) & (class < event::CONVERGENT)))
        & (identifier
            & ((kind == identifier::ABSTRACT_VARIABLE)
                | ((kind == identifier::ABSTRACT_PARAMETER) & (owner == refined))))
}

// The root that row i names; 0 where it names none.
pub fn root_at(words: &[u64], i: usize) -> u64
    ensures { result ≡ root_at (rows_of words.now) i }
{
    let tag = tag_at(words, i);
    if (tag == tag::AXIOM)
        | ((tag == tag::ABSTRACT_INVARIANT)
            | ((tag == tag::CONCRETE_INVARIANT) | (tag == tag::VARIANT)))
    {
        return a_at(words, i);
    }
    if tag == tag::GUARD {
        return b_at(words, i);
    }
    if ((tag == tag::BECOMES_EQUAL) | (tag == tag::BECOMES_SUCH)) | (tag == tag::WITNESS) {
        return c_at(words, i);
    }
    0
}

pub fn names_root(words: &[u64], i: usize) -> bool
    ensures { result ≡ names_root (rows_of words.now) i }
{
    let tag = tag_at(words, i);
    (tag::NODE < tag) & !(tag == tag::EVENT)
}

// Whether the event and the identifier that row i names fit its tag.
fn good_target(table: &Counted, i: usize) -> bool
    ensures { result ≡ good_target (rows_of table.now.words.now) i }
{
    let tag = table.tag_at(i);
    let a = table.a_at(i);
    let b = table.b_at(i);
    if tag == tag::GUARD {
        return guard_event(table, a);
    }
    if (tag == tag::BECOMES_EQUAL) | (tag == tag::BECOMES_SUCH) {
        return action_target(table, a, b);
    }
    if tag == tag::WITNESS {
        return witness_target(table, a, b);
    }
    true
}

// Whether row i offends against check 7: a node by its columns, another row by what it names.
pub fn reference_offends(table: &Counted, i: usize) -> bool
    ensures { result ≡ reference_offends (rows_of table.now.words.now) i }
{
    if table.tag_at(i) == tag::NODE {
        let found = find_operator(table.a_at(i));
        let shape = found.shape;
        return !good_columns(table, shape, i);
    }
    if !names_root(table.words, i) {
        return false;
    }
    !(good_target(table, i) & table.named_node(root_at(table.words, i)))
}
