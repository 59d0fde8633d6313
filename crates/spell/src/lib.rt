// 01, Sequents: an entry spelled out as rows 83. Each function gives the count of its rows, capped, and writes as many of them as there
// is room for into the front of the buffer; with an empty buffer it only counts.
#![tactic(auto)]

ghost use Rattle.std.specs.Prelude.{◌≡◌, ◌+◌, ◌≤◌, true, false, [], ◌∷◌, ◌++◌};
ghost use Rattle.lists.specs.Choice.{pick};
ghost use Rattle.table.specs.Rows.{rows_of};
ghost use Rattle.table.specs.Lookups.{is_variable_number};
ghost use Rattle.operators.specs.Operator.{meant_shape};
ghost use Rattle.reply.specs.Spelled.{spelled, some_value_number, some_after_value_number};
ghost use Rattle.spell.specs.Operators.{literal_number, identifier_number, after_number, equals_number};
ghost use Rattle.spell.specs.Spell.{capped, rest_start, Spelled, leaf, node_by, operand_rows, node_of, shown_rows, defined_rows, divides, guard_number, opening_rows, guard_rows, nonzero_rows, natural_rows, closing_rows, unchanged_rows, moves_rows, witness_node, entry_rows};

use conditions::{Condition, find_condition};
use operators::{Shape, find_operator};
use reply::tags;
use row::Row;
use scan::{Query, find_row};
use sequent::{Entry, form};
use table::{Counted, Table, c_at, operand, operator, size, sort, tag};

// More rows than any buffer has room for.
const ROWS_CAP: u64 = 1152921504606846976;

// What a node is spelled by: the operator and b of its row, how many operands follow it, and their nodes.
#[derive(Clone, Copy)]
struct Node {
    operator: u64,
    b: u64,
    operands: u64,
    left: u64,
    right: u64,
}

// The capped count of some rows and then others.
fn add_rows(rows: u64, more: u64) -> u64
    ensures { result ≡ capped (rows + more) }
{
    if ROWS_CAP <= rows {
        return ROWS_CAP;
    }
    if ROWS_CAP - rows <= more {
        return ROWS_CAP;
    }
    rows + more
}

// Where what is left of a buffer starts after some rows: at its end where they have no room.
fn rest_start(size: usize, rows: u64) -> usize
    ensures value { result ≡ rest_start size rows }
    ensures upper_bound { result ≤ size }
{
    if ((size / Row::LENGTH) as u64) < rows {
        return size;
    }
    Row::LENGTH * rows as usize
}

// One row 83 into the front of the buffer.
fn row_83(out: &mut [u8], operator: u64, b: u64) -> u64
    ensures { Spelled (spelled operator b ∷ []) result out.old out.new }
{
    if Row::LENGTH <= out.len() {
        let row = Row {
            tag: tags::SPELLED,
            a: operator,
            b,
            c: 0,
        };
        row.write(out);
    }
    1
}

// A node without operands.
fn leaf(operator: u64, b: u64) -> Node
    ensures { result ≡ leaf operator b }
{
    Node {
        operator,
        b,
        operands: 0,
        left: 0,
        right: 0,
    }
}

// The operator of an identifier's row, its after value where primed.
fn identifier_operator(primed: bool) -> u64
    ensures { result ≡ pick primed after_number identifier_number }
{
    if primed {
        operator::AFTER
    } else {
        operator::IDENTIFIER
    }
}

// A node by its operator's shape.
fn shaped_node(shape: Shape, operator: u64, primed: bool, b: u64, left: u64, right: u64) -> Node
    ensures { result ≡ node_by (meant_shape shape) operator primed b left right }
{
    match shape {
        Shape::Value => leaf(operator, b),
        Shape::Identifier => leaf(identifier_operator(primed), b),
        Shape::Variable => leaf(operator, b),
        Shape::NoOperand => leaf(operator, 0),
        Shape::OneOperand => Node {
            operator,
            b: 0,
            operands: 1,
            left,
            right: 0,
        },
        Shape::TwoOperands => Node {
            operator,
            b: 0,
            operands: 2,
            left,
            right,
        },
        Shape::Unknown => leaf(operator::BOTTOM, 0),
    }
}

// What node n is spelled by.
fn node_at(table: &Counted, n: u64, primed: bool) -> Node
    ensures { result ≡ node_of (rows_of table.now.words.now) primed n }
{
    if n == 0 {
        return leaf(operator::BOTTOM, 0);
    }
    let operator = table.node_field(n, Table::OPERATOR);
    let b = table.node_field(n, Table::LEFT);
    let c = table.node_field(n, Table::RIGHT);
    let found = find_operator(operator);
    let shape = found.shape;
    let variable = table.is_variable(b);
    let left = operand(n, b);
    let right = operand(n, c);
    shaped_node(shape, operator, primed & variable, b, left, right)
}

// The tree of node n, an expression: its row, then its operands' rows. A predicate is handed on.
#[cycle(spell_expression_spell_operands_spell_predicate)]
pub fn spell_expression(table: &Counted, n: u64, primed: bool, out: &mut [u8]) -> u64
    ensures { Spelled (shown_rows (rows_of table.now.words.now) primed n) result out.old out.new }
{
    let node = node_at(table, n, primed);
    let found = find_operator(node.operator);
    if found.sort == sort::PREDICATE {
        return spell_predicate(table, n, primed, out);
    }
    let head = row_83(out, node.operator, node.b);
    let at = rest_start(out.len(), head);
    let operands = spell_operands(table, node, primed, &mut out[at..]);
    add_rows(head, operands)
}

// The tree of node n, a predicate: its row, then its operands' rows.
#[cycle(spell_expression_spell_operands_spell_predicate)]
pub fn spell_predicate(table: &Counted, n: u64, primed: bool, out: &mut [u8]) -> u64
    ensures { Spelled (shown_rows (rows_of table.now.words.now) primed n) result out.old out.new }
{
    let node = node_at(table, n, primed);
    let head = row_83(out, node.operator, node.b);
    let at = rest_start(out.len(), head);
    let operands = spell_operands(table, node, primed, &mut out[at..]);
    add_rows(head, operands)
}

// The trees of a node's operands, each begun as an expression, which hands a predicate on.
#[cycle(spell_expression_spell_operands_spell_predicate)]
fn spell_operands(table: &Counted, node: Node, primed: bool, out: &mut [u8]) -> u64
    ensures { Spelled (operand_rows node.operands (shown_rows (rows_of table.now.words.now) primed node.left) (shown_rows (rows_of table.now.words.now) primed node.right)) result out.old out.new }
{
    if node.operands == 0 {
        return 0;
    }
    let left = spell_expression(table, node.left, primed, out);
    if node.operands == 1 {
        return left;
    }
    let at = rest_start(out.len(), left);
    let right = spell_expression(table, node.right, primed, &mut out[at..]);
    add_rows(left, right)
}

// A row, then the tree of node n.
fn spell_under(table: &Counted, operator: u64, b: u64, n: u64, primed: bool, out: &mut [u8]) -> u64
    ensures { Spelled (spelled operator b ∷ shown_rows (rows_of table.now.words.now) primed n) result out.old out.new }
{
    let head = row_83(out, operator, b);
    let at = rest_start(out.len(), head);
    let tree = spell_expression(table, n, primed, &mut out[at..]);
    add_rows(head, tree)
}

// A comparison: its row, the row of its left side, and the tree of its right side's root.
fn spell_comparison(
    table: &Counted,
    operator: u64,
    left: u64,
    b: u64,
    root: u64,
    out: &mut [u8],
) -> u64
    ensures { Spelled (spelled operator 0 ∷ spelled left b ∷ shown_rows (rows_of table.now.words.now) false root) result out.old out.new }
{
    let head = row_83(out, operator, 0);
    let at = rest_start(out.len(), head);
    let sides = spell_under(table, left, b, root, false, &mut out[at..]);
    add_rows(head, sides)
}

// Whether an operator is ÷ or mod, whose WD says something of the operands' values.
fn divides(operator: u64) -> bool
    ensures { result ≡ divides operator }
{
    let condition = find_condition(operator);
    match condition {
        Condition::Nothing => false,
        Condition::Divisor => true,
        Condition::Operands => true,
        Condition::LeftTrue => false,
        Condition::LeftFalse => false,
    }
}

// The number of the operator under which P stands again before WD(Q); 0 where it doesn't.
fn guard_number(operator: u64) -> u64
    ensures { result ≡ guard_number operator }
{
    let condition = find_condition(operator);
    match condition {
        Condition::Nothing => 0,
        Condition::Divisor => 0,
        Condition::Operands => 0,
        Condition::LeftTrue => operator::IMPLIES,
        Condition::LeftFalse => operator::OR,
    }
}

// What stands before WD(a) in the WD of a pair: ∧, and one more for ÷ and mod.
fn spell_opening(operator: u64, out: &mut [u8]) -> u64
    ensures { Spelled (opening_rows operator) result out.old out.new }
{
    let head = row_83(out, operator::AND, 0);
    if divides(operator) {
        let at = rest_start(out.len(), head);
        let second = row_83(&mut out[at..], operator::AND, 0);
        return add_rows(head, second);
    }
    head
}

// What stands between WD(a) and WD(b): for ∧ and ⇒ that a implies the rest, for ∨ that a or the rest holds.
fn spell_guard(table: &Counted, operator: u64, left: u64, out: &mut [u8]) -> u64
    ensures { Spelled (guard_rows operator (shown_rows (rows_of table.now.words.now) false left)) result out.old out.new }
{
    let guard = guard_number(operator);
    if guard == 0 {
        return 0;
    }
    spell_under(table, guard, 0, left, false, out)
}

// The equation of node n and the literal 0.
fn spell_equals_zero(table: &Counted, n: u64, out: &mut [u8]) -> u64
    ensures { Spelled ((spelled equals_number 0 ∷ shown_rows (rows_of table.now.words.now) false n) ++ (spelled literal_number 0 ∷ [])) result out.old out.new }
{
    let equal = spell_under(table, operator::EQUAL, 0, n, false, out);
    let at = rest_start(out.len(), equal);
    let zero = row_83(&mut out[at..], operator::LITERAL, 0);
    add_rows(equal, zero)
}

// "¬(b = 0)".
fn spell_nonzero(table: &Counted, right: u64, out: &mut [u8]) -> u64
    ensures { Spelled (nonzero_rows (shown_rows (rows_of table.now.words.now) false right)) result out.old out.new }
{
    let head = row_83(out, operator::NOT, 0);
    let at = rest_start(out.len(), head);
    let equal = spell_equals_zero(table, right, &mut out[at..]);
    add_rows(head, equal)
}

// "0 ≤ a ∧ 0 < b".
fn spell_natural(table: &Counted, left: u64, right: u64, out: &mut [u8]) -> u64
    ensures { Spelled (natural_rows (shown_rows (rows_of table.now.words.now) false left) (shown_rows (rows_of table.now.words.now) false right)) result out.old out.new }
{
    let head = row_83(out, operator::AND, 0);
    let left_at = rest_start(out.len(), head);
    let at_most = spell_comparison(
        table,
        operator::AT_MOST,
        operator::LITERAL,
        0,
        left,
        &mut out[left_at..],
    );
    let to_left = add_rows(head, at_most);
    let right_at = rest_start(out.len(), to_left);
    let less = spell_comparison(
        table,
        operator::LESS,
        operator::LITERAL,
        0,
        right,
        &mut out[right_at..],
    );
    add_rows(to_left, less)
}

// What stands after WD(b): what ÷ and mod ask of their operands' values.
fn spell_closing(table: &Counted, operator: u64, left: u64, right: u64, out: &mut [u8]) -> u64
    ensures { Spelled (closing_rows operator (shown_rows (rows_of table.now.words.now) false left) (shown_rows (rows_of table.now.words.now) false right)) result out.old out.new }
{
    let condition = find_condition(operator);
    match condition {
        Condition::Nothing => 0,
        Condition::Divisor => spell_nonzero(table, right, out),
        Condition::Operands => spell_natural(table, left, right, out),
        Condition::LeftTrue => 0,
        Condition::LeftFalse => 0,
    }
}

// The WD of node n.
pub fn spell_defined(table: &Counted, n: u64, out: &mut [u8]) -> u64
    ensures { Spelled (defined_rows (rows_of table.now.words.now) n) result out.old out.new }
{
    let node = node_at(table, n, false);
    if node.operands == 0 {
        return row_83(out, operator::TOP, 0);
    }
    if node.operands == 1 {
        return spell_defined(table, node.left, out);
    }
    let opening = spell_opening(node.operator, out);
    let left_at = rest_start(out.len(), opening);
    let left = spell_defined(table, node.left, &mut out[left_at..]);
    let to_left = add_rows(opening, left);
    let guard_at = rest_start(out.len(), to_left);
    let guard = spell_guard(table, node.operator, node.left, &mut out[guard_at..]);
    let to_guard = add_rows(to_left, guard);
    let right_at = rest_start(out.len(), to_guard);
    let right = spell_defined(table, node.right, &mut out[right_at..]);
    let to_right = add_rows(to_guard, right);
    let closing_at = rest_start(out.len(), to_right);
    let closing = spell_closing(
        table,
        node.operator,
        node.left,
        node.right,
        &mut out[closing_at..],
    );
    add_rows(to_right, closing)
}

// An equation of two values of x, each by its row's operator: 2 the value, 3 the after value.
fn spell_equation(x: u64, left: u64, right: u64, out: &mut [u8]) -> u64
    ensures { Spelled ((spelled equals_number 0 ∷ spelled left x ∷ []) ++ (spelled right x ∷ [])) result out.old out.new }
{
    let head = row_83(out, operator::EQUAL, 0);
    let left_at = rest_start(out.len(), head);
    let first = row_83(&mut out[left_at..], left, x);
    let to_left = add_rows(head, first);
    let right_at = rest_start(out.len(), to_left);
    let second = row_83(&mut out[right_at..], right, x);
    add_rows(to_left, second)
}

// "after equals before": form 10, and form 4 of a variable that is unassigned.
fn spell_unchanged(x: u64, out: &mut [u8]) -> u64
    ensures { Spelled (unchanged_rows x) result out.old out.new }
{
    spell_equation(x, operator::AFTER, operator::IDENTIFIER, out)
}

// Form 4: the action of the event e for the variable x.
fn spell_moves(table: &Counted, e: u64, x: u64, out: &mut [u8]) -> u64
    ensures { Spelled (moves_rows (rows_of table.now.words.now) e x) result out.old out.new }
{
    let query = Query::Assigns {
        event: e,
        target: x,
    };
    let i = find_row(table.words, query);
    if table.size() <= i {
        return spell_unchanged(x, out);
    }
    let root = table.c_at(i);
    if table.tag_at(i) == tag::BECOMES_EQUAL {
        return spell_comparison(table, operator::EQUAL, operator::AFTER, x, root, out);
    }
    spell_expression(table, root, false, out)
}

// Form 5: some after value of x meets the action.
fn spell_feasible(table: &Counted, e: u64, x: u64, out: &mut [u8]) -> u64
    ensures { Spelled (spelled some_after_value_number x ∷ moves_rows (rows_of table.now.words.now) e x) result out.old out.new }
{
    let head = row_83(out, operator::SOME_AFTER_VALUE, x);
    let at = rest_start(out.len(), head);
    let action = spell_moves(table, e, x, &mut out[at..]);
    add_rows(head, action)
}

// The root of the witness of the event e for x; 0 where there is none, as the columns past the last row are.
fn witness_root(words: &[u64], e: u64, x: u64) -> u64
    ensures { result ≡ witness_node (rows_of words.now) e x }
{
    let query = Query::Witnesses {
        event: e,
        target: x,
    };
    c_at(words, find_row(words, query))
}

// "some value of", or "some after value of" a variable.
fn some_operator(variable: bool) -> u64
    ensures { result ≡ pick variable some_after_value_number some_value_number }
{
    if variable {
        operator::SOME_AFTER_VALUE
    } else {
        operator::SOME_VALUE
    }
}

// Form 6: some value of x, or some after value of a variable, meets the witness.
fn spell_witnessed(table: &Counted, e: u64, x: u64, out: &mut [u8]) -> u64
    ensures { Spelled (spelled (pick (is_variable_number (rows_of table.now.words.now) x) some_after_value_number some_value_number) x ∷ shown_rows (rows_of table.now.words.now) false (witness_node (rows_of table.now.words.now) e x)) result out.old out.new }
{
    let operator = some_operator(table.is_variable(x));
    let root = witness_root(table.words, e, x);
    spell_under(table, operator, x, root, false, out)
}

// Forms 8 and 9: variant after < variant, variant after ≤ variant, by the operator.
fn spell_variants(table: &Counted, operator: u64, root: u64, out: &mut [u8]) -> u64
    ensures { Spelled ((spelled operator 0 ∷ shown_rows (rows_of table.now.words.now) true root) ++ shown_rows (rows_of table.now.words.now) false root) result out.old out.new }
{
    let after = spell_under(table, operator, 0, root, true, out);
    let at = rest_start(out.len(), after);
    let before = spell_expression(table, root, false, &mut out[at..]);
    add_rows(after, before)
}

// An entry spelled out: the count of its rows, capped, and the rows where the buffer has room for them. Form 7, 0 ≤ variant, is a comparison with a literal.
pub fn spell(table: &Counted, entry: Entry, out: &mut [u8]) -> u64
    ensures { Spelled (entry_rows (rows_of table.now.words.now) entry) result out.old out.new }
{
    let form = entry.form;
    let first = entry.first;
    let second = entry.second;
    match form {
        form::PRIMED => spell_expression(table, first, true, out),
        form::DEFINED => spell_defined(table, first, out),
        form::MOVES => spell_moves(table, first, second, out),
        form::FEASIBLE => spell_feasible(table, first, second, out),
        form::WITNESSED => spell_witnessed(table, first, second, out),
        form::NATURAL => spell_comparison(
            table,
            operator::AT_MOST,
            operator::LITERAL,
            0,
            first,
            out,
        ),
        form::DECREASES => spell_variants(table, operator::LESS, first, out),
        form::NOT_INCREASED => spell_variants(table, operator::AT_MOST, first, out),
        form::UNCHANGED => spell_unchanged(first, out),
        _ => spell_expression(table, first, false, out),
    }
}
