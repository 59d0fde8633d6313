// 01, refusal 10, sight: "a formula mentions what it may not". It runs after check 9, where each node has one use, so that a walk meets no node twice.
#![tactic(auto)]

ghost use Rattle.std.specs.Prelude.{◌≡◌};
ghost use Rattle.table.specs.Rows.{rows_of};
ghost use Rattle.rules.specs.Sight.{event_sees, may_mention, may_mention_after, sees_only};
ghost use Rattle.rules.specs.Rules.{sight_offends};

use operators::{Shape, find_operator};
use rule_references::{names_root, root_at};
use table::{Counted, Table, event, identifier, is_variable_of, operand, tag, variable_kind};

// "guard and action, constants, the event's own parameters and its machine's variables"; an initialisation mentions no present variable value.
fn event_sees(table: &Counted, e: u64, x: u64) -> bool
    ensures { result ≡ event_sees (rows_of table.now.words.now) e x }
{
    let kind = table.identifier_field(x, Table::KIND);
    let owner = table.identifier_field(x, Table::OWNER);
    let machine = table.event_field(e, Table::MACHINE);
    let class = table.event_field(e, Table::CLASS);
    let variable = variable_kind(kind, machine);
    (kind == identifier::CONSTANT)
        | ((((kind == identifier::ABSTRACT_PARAMETER) | (kind == identifier::CONCRETE_PARAMETER))
            & (owner == e))
            | (variable & !(class == event::INITIALISATION)))
}

// Whether the formula of row i may mention the identifier x; 02, request 2: a shared variable "where either kind of variable is allowed".
fn may_mention(table: &Counted, i: usize, x: u64) -> bool
    ensures { result ≡ may_mention (rows_of table.now.words.now) i x }
{
    let kind = table.identifier_field(x, Table::KIND);
    let abstract_variable = is_variable_of(identifier::ABSTRACT_VARIABLE, kind);
    let concrete_variable = is_variable_of(identifier::CONCRETE_VARIABLE, kind);
    let event = event_sees(table, table.a_at(i), x);
    let b = table.b_at(i);
    let tag = table.tag_at(i);
    if tag == tag::AXIOM {
        return kind == identifier::CONSTANT;
    }
    if tag == tag::ABSTRACT_INVARIANT {
        return (kind == identifier::CONSTANT) | abstract_variable;
    }
    if tag == tag::CONCRETE_INVARIANT {
        return (kind == identifier::CONSTANT)
            | ((kind == identifier::ABSTRACT_VARIABLE) | concrete_variable);
    }
    if tag == tag::VARIANT {
        return (kind == identifier::CONSTANT) | concrete_variable;
    }
    if tag == tag::WITNESS {
        return event | ((kind == identifier::ABSTRACT_PARAMETER) & (x == b));
    }
    event
}

// Whether the formula of row i may mention the after value of x: "52 also the after value it sets", a variable witness "concrete after values, and its own
// after value".
fn may_mention_after(table: &Counted, i: usize, x: u64) -> bool
    ensures { result ≡ may_mention_after (rows_of table.now.words.now) i x }
{
    let b = table.b_at(i);
    let kind = table.identifier_field(x, Table::KIND);
    let target = table.identifier_field(b, Table::KIND);
    let concrete_variable = is_variable_of(identifier::CONCRETE_VARIABLE, kind);
    let tag = table.tag_at(i);
    if tag == tag::BECOMES_SUCH {
        return x == b;
    }
    if tag == tag::WITNESS {
        return (target == identifier::ABSTRACT_VARIABLE) & (concrete_variable | (x == b));
    }
    false
}

// Whether the tree of the node n mentions only what the formula of row i may.
fn sees_only(table: &Counted, i: usize, n: u64) -> bool
    ensures { result ≡ sees_only (rows_of table.now.words.now) i n }
{
    if n == 0 {
        return true;
    }
    let b = table.node_field(n, Table::LEFT);
    let c = table.node_field(n, Table::RIGHT);
    let found = find_operator(table.node_field(n, Table::OPERATOR));
    let shape = found.shape;
    match shape {
        Shape::Value => true,
        Shape::Identifier => may_mention(table, i, b),
        Shape::Variable => may_mention_after(table, i, b),
        Shape::NoOperand => true,
        Shape::OneOperand => sees_only(table, i, operand(n, b)),
        Shape::TwoOperands => sees_only(table, i, operand(n, b))
            & sees_only(table, i, operand(n, c)),
        Shape::Unknown => true,
    }
}

// Whether row i offends against check 10.
pub fn sight_offends(table: &Counted, i: usize) -> bool
    ensures { result ≡ sight_offends (rows_of table.now.words.now) i }
{
    let names = names_root(table.words, i);
    let sees = sees_only(table, i, root_at(table.words, i));
    names & !sees
}
