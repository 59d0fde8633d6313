// 02, request 5: what evaluating a formula in signed 64 bits gives, at values of the identifiers. Expressions and predicates call each other, with the node number falling.
#![tactic(auto)]

mod env;

ghost use Rattle.std.specs.Prelude.{◌≡◌, pos, get_or, Ok};
ghost use Rattle.table.specs.Rows.{rows_of};
ghost use Rattle.formula.specs.Values.{wrap};
ghost use Rattle.machine.specs.Operator.{operator_numbered};
ghost use Rattle.machine.specs.Described.{type_numbered, tree_of, machine_of};
ghost use Rattle.answer.specs.Answer.{within, answer};
ghost use Rattle.answer.specs.Stored.{stored_value, stored_env};
ghost use Rattle.signed.specs.Found.{found_of, answer_of};
ghost use Rattle.evaluate.specs.Evaluate.{operator_at, is_leaf, leaf_answer, combined, has_truth, reads_right_of};

pub use env::Env;
use operands::{
    and_answer, as_truth, at_most_answer, bool_answer, equal_answer, iff_answer, implies_answer,
    less_answer, minus_answer, negation_answer, not_answer, or_answer, plus_answer,
    quotient_answer, remainder_answer, times_answer,
};
use operators::find_operator;
use signed::{Found, Value, of_word};
use table::{Table, operand, operator, sort};

// What an operator gives of its operands' answers, one by one in 01's order.
fn combine(operator: u64, left: Found, right: Found) -> Found
    ensures { result ≡ found_of (combined (operator_numbered operator) (answer_of left) (answer_of right)) }
{
    match operator {
        operator::BOOL => bool_answer(left),
        operator::PLUS => plus_answer(left, right),
        operator::MINUS => minus_answer(left, right),
        operator::TIMES => times_answer(left, right),
        operator::QUOTIENT => quotient_answer(left, right),
        operator::REMAINDER => remainder_answer(left, right),
        operator::NEGATION => negation_answer(left),
        operator::EQUAL => equal_answer(left, right),
        operator::LESS => less_answer(left, right),
        operator::AT_MOST => at_most_answer(left, right),
        operator::NOT => not_answer(left),
        operator::AND => and_answer(left, right),
        operator::OR => or_answer(left, right),
        operator::IMPLIES => implies_answer(left, right),
        operator::IFF => iff_answer(left, right),
        _ => Ok(Value::Truth(false)), // a leaf, or unknown
    }
}

// Whether an operator takes no operands.
fn is_leaf(operator: u64) -> bool
    ensures { result ≡ is_leaf (operator_numbered operator) }
{
    match operator {
        operator::BOOL => false,
        operator::PLUS => false,
        operator::MINUS => false,
        operator::TIMES => false,
        operator::QUOTIENT => false,
        operator::REMAINDER => false,
        operator::NEGATION => false,
        operator::EQUAL => false,
        operator::LESS => false,
        operator::AT_MOST => false,
        operator::NOT => false,
        operator::AND => false,
        operator::OR => false,
        operator::IMPLIES => false,
        operator::IFF => false,
        _ => true, // a leaf, or unknown
    }
}

// Whether a side has a value of this truth.
fn has_truth(side: Found, truth: bool) -> bool
    ensures { result ≡ has_truth side truth }
{
    match side {
        Ok(_) => as_truth(side) == truth,
        Err(_) => false,
    }
}

// Whether an operator reads its right operand, by the answer of its left one: "∧ and ⇒ read their right side only where the left is true, ∨ only where it is
// false"; "∧, ∨, ⇒ and ⇔ stop at a faulty left side".
fn reads_right(operator: u64, left: Found) -> bool
    ensures { result ≡ reads_right_of (operator_numbered operator) left }
{
    match operator {
        operator::PLUS => true,
        operator::MINUS => true,
        operator::TIMES => true,
        operator::QUOTIENT => true,
        operator::REMAINDER => true,
        operator::EQUAL => true,
        operator::LESS => true,
        operator::AT_MOST => true,
        operator::AND => has_truth(left, true),
        operator::OR => has_truth(left, false),
        operator::IMPLIES => has_truth(left, true),
        operator::IFF => left.is_ok(),
        _ => false, // one operand, a leaf, or unknown
    }
}

// The value of an identifier of a type, as it is stored.
pub fn stored_value(sort: u64, value: i64) -> Value
    ensures { Ok result ≡ found_of (within (wrap (type_numbered sort) (stored_value (type_numbered sort) value))) }
{
    if sort == sort::BOOLEAN {
        return Value::Truth(value == 1);
    }
    Value::Number(value)
}

// The value in a place of a list; 0 past its end.
pub fn value_at(values: &[i64], x: u64) -> i64
    ensures { result ≡ get_or values.now x (pos 0) }
{
    let i = x as usize;
    if i < values.len() { values[i] } else { 0 }
}

// A leaf's answer. 01, Rows: "1 literal (b its value), 2 identifier (b), 3 after value of a variable (b), 4 TRUE, 5 FALSE", "30 ⊤, 31 ⊥".
fn leaf(env: &Env, operator: u64, b: u64) -> Found
    ensures { result ≡ found_of (leaf_answer (stored_env (machine_of (rows_of env.now.words.now)).type env.now.present.now env.now.after.now) (operator_numbered operator) b) }
{
    match operator {
        operator::LITERAL => Ok(Value::Number(of_word(b))),
        operator::IDENTIFIER => {
            let sort = env.identifier_field(b, Table::TYPE);
            Ok(stored_value(sort, value_at(env.present, b)))
        }
        operator::AFTER => {
            let sort = env.identifier_field(b, Table::TYPE);
            Ok(stored_value(sort, value_at(env.after, b)))
        }
        operator::TRUE | operator::TOP => Ok(Value::Truth(true)),
        _ => Ok(Value::Truth(false)), // FALSE, ⊥, unknown, or no leaf
    }
}

// The operator of node n; of node 0, which is none, that of ⊥.
fn operator_at(env: &Env, n: u64) -> u64
    ensures { result ≡ operator_at (rows_of env.now.words.now) n }
{
    if n == 0 {
        return operator::BOTTOM;
    }
    env.node_field(n, Table::OPERATOR)
}

// The answer of node n, an expression.
#[cycle(evaluate_expression_evaluate_node_evaluate_operand_evaluate_predicate)]
pub fn evaluate_expression(env: &Env, n: u64) -> Found
    ensures { result ≡ found_of (answer (stored_env (machine_of (rows_of env.now.words.now)).type env.now.present.now env.now.after.now) (tree_of (rows_of env.now.words.now) n)) }
{
    evaluate_node(env, n)
}

// The answer of node n, a predicate.
#[cycle(evaluate_expression_evaluate_node_evaluate_operand_evaluate_predicate)]
pub fn evaluate_predicate(env: &Env, n: u64) -> Found
    ensures { result ≡ found_of (answer (stored_env (machine_of (rows_of env.now.words.now)).type env.now.present.now env.now.after.now) (tree_of (rows_of env.now.words.now) n)) }
{
    evaluate_node(env, n)
}

// The answer of node n, an operand of this operator: a predicate or an expression, as the operator takes it.
#[cycle(evaluate_expression_evaluate_node_evaluate_operand_evaluate_predicate)]
fn evaluate_operand(env: &Env, operator: u64, n: u64) -> Found
    ensures { result ≡ found_of (answer (stored_env (machine_of (rows_of env.now.words.now)).type env.now.present.now env.now.after.now) (tree_of (rows_of env.now.words.now) n)) }
{
    let found = find_operator(operator);
    if found.operands == sort::PREDICATE {
        return evaluate_predicate(env, n);
    }
    evaluate_expression(env, n)
}

// The answer of node n by its operator, from the values of its operands, of which a fault is the answer. The right one is evaluated only where it is read.
#[cycle(evaluate_expression_evaluate_node_evaluate_operand_evaluate_predicate)]
fn evaluate_node(env: &Env, n: u64) -> Found
    ensures { result ≡ found_of (answer (stored_env (machine_of (rows_of env.now.words.now)).type env.now.present.now env.now.after.now) (tree_of (rows_of env.now.words.now) n)) }
{
    let operator = operator_at(env, n);
    let b = env.node_field(n, Table::LEFT);
    if is_leaf(operator) {
        return leaf(env, operator, b);
    }
    let x = operand(n, b);
    let left = evaluate_operand(env, operator, x)?;
    let mut right = left;
    if reads_right(operator, Ok(left)) {
        let c = env.node_field(n, Table::RIGHT);
        let y = operand(n, c);
        right = evaluate_operand(env, operator, y)?;
    }
    combine(operator, Ok(left), Ok(right))
}
