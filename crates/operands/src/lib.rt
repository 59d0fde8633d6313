// 02, request 5: how the answers of operands are combined: which fault wins, and where the right side is read.
#![tactic(auto)]

ghost use Rattle.std.specs.Prelude.{◌≡◌};
ghost use Rattle.formula.specs.Values.{as_number, as_truth, equal_value};
ghost use Rattle.formula.specs.Tree.{bool, negation, logicalNot, plus, minus, times, equal, less, at_most, iff, quotient, remainder, and, or, implies};
ghost use Rattle.formula.specs.Evaluate.{division_defined};
ghost use Rattle.answer.specs.Answer.{unary_answer, binary_answer, division_answer, connective_answer};
ghost use Rattle.signed.specs.Found.{found_of, answer_of};
ghost use Rattle.operands.specs.Operands.{value_of, answer_value};

use signed::{Fault, Found, Value, add, divide, multiply, negate, remainder, subtract};

// A value where a number is wanted; 0 of a truth value, which no sorted formula puts there.
fn number_in(v: Value) -> i64
    ensures { result ≡ as_number (value_of v) }
{
    match v {
        Value::Number(z) => z,
        Value::Truth(_) => 0,
    }
}

// A value where a truth value is wanted; false of a number, which no sorted formula puts there.
fn truth_in(v: Value) -> bool
    ensures { result ≡ as_truth (value_of v) }
{
    match v {
        Value::Number(_) => false,
        Value::Truth(b) => b,
    }
}

// 02, request 7: "a mod b only for 0 ≤ a and 0 < b".
fn remainder_defined(left: Value, right: Value) -> bool
    ensures { result ≡ division_defined remainder (value_of left) (value_of right) }
{
    let from_zero = 0 <= number_in(left);
    from_zero & (0 < number_in(right))
}

// 01, Rows: "20 = (both integer or both boolean)".
fn same(left: Value, right: Value) -> bool
    ensures { result ≡ equal_value (value_of left) (value_of right) }
{
    left == right
}

// An answer where a number is wanted; 0 of one that has none.
pub fn as_number(f: Found) -> i64
    ensures { result ≡ as_number (answer_value f) }
{
    match f {
        Ok(v) => number_in(v),
        Err(_) => 0,
    }
}

// An answer where a truth value is wanted; false of one that has none.
pub fn as_truth(f: Found) -> bool
    ensures { result ≡ as_truth (answer_value f) }
{
    match f {
        Ok(v) => truth_in(v),
        Err(_) => false,
    }
}

// Whether two answers have equal values; a fault counts as 0.
pub fn equal_values(left: Found, right: Found) -> bool
    ensures { result ≡ equal_value (answer_value left) (answer_value right) }
{
    let zero = Value::Number(0);
    same(left.unwrap_or(zero), right.unwrap_or(zero))
}

// The truth of an operand, or its fault.
pub fn bool_answer(operand: Found) -> Found
    ensures { result ≡ found_of (unary_answer bool (answer_of operand)) }
{
    Ok(Value::Truth(truth_in(operand?)))
}

// 02, request 8: "the leftmost operand now decides, operands before their operator": here and below.
pub fn plus_answer(left: Found, right: Found) -> Found
    ensures { result ≡ found_of (binary_answer plus (answer_of left) (answer_of right)) }
{
    let a = left?;
    let b = right?;
    add(number_in(a), number_in(b))
}

pub fn minus_answer(left: Found, right: Found) -> Found
    ensures { result ≡ found_of (binary_answer minus (answer_of left) (answer_of right)) }
{
    subtract(number_in(left?), number_in(right?))
}

pub fn times_answer(left: Found, right: Found) -> Found
    ensures { result ≡ found_of (binary_answer times (answer_of left) (answer_of right)) }
{
    multiply(number_in(left?), number_in(right?))
}

// 01, Rows: ÷ is "undefined for b = 0".
pub fn quotient_answer(left: Found, right: Found) -> Found
    ensures { result ≡ found_of (division_answer quotient (answer_of left) (answer_of right)) }
{
    let dividend = left?;
    let divisor = right?;
    if same(divisor, Value::Number(0)) {
        return Err(Fault::Undefined);
    }
    divide(number_in(dividend), number_in(divisor))
}

pub fn remainder_answer(left: Found, right: Found) -> Found
    ensures { result ≡ found_of (division_answer remainder (answer_of left) (answer_of right)) }
{
    let m = left?;
    let n = right?;
    if remainder_defined(m, n) {
        return remainder(number_in(m), number_in(n));
    }
    Err(Fault::Undefined)
}

pub fn negation_answer(operand: Found) -> Found
    ensures { result ≡ found_of (unary_answer negation (answer_of operand)) }
{
    negate(number_in(operand?))
}

pub fn equal_answer(left: Found, right: Found) -> Found
    ensures { result ≡ found_of (binary_answer equal (answer_of left) (answer_of right)) }
{
    let v = left?;
    let w = right?;
    Ok(Value::Truth(same(v, w)))
}

pub fn less_answer(left: Found, right: Found) -> Found
    ensures { result ≡ found_of (binary_answer less (answer_of left) (answer_of right)) }
{
    Ok(Value::Truth(number_in(left?) < number_in(right?)))
}

pub fn at_most_answer(left: Found, right: Found) -> Found
    ensures { result ≡ found_of (binary_answer at_most (answer_of left) (answer_of right)) }
{
    Ok(Value::Truth(number_in(left?) <= number_in(right?)))
}

pub fn not_answer(operand: Found) -> Found
    ensures { result ≡ found_of (unary_answer logicalNot (answer_of operand)) }
{
    Ok(Value::Truth(!truth_in(operand?)))
}

// 01, The run: "∧ and ⇒ read their right side only where the left is true, ∨ only where it is false"; 02, request 5: "∧, ∨, ⇒ and ⇔ stop at a faulty left side".
pub fn and_answer(left: Found, right: Found) -> Found
    ensures { result ≡ found_of (connective_answer and (answer_of left) (answer_of right)) }
{
    if truth_in(left?) {
        return bool_answer(right);
    }
    Ok(Value::Truth(false))
}

pub fn or_answer(left: Found, right: Found) -> Found
    ensures { result ≡ found_of (connective_answer or (answer_of left) (answer_of right)) }
{
    if truth_in(left?) {
        return Ok(Value::Truth(true));
    }
    bool_answer(right)
}

pub fn implies_answer(left: Found, right: Found) -> Found
    ensures { result ≡ found_of (connective_answer implies (answer_of left) (answer_of right)) }
{
    if truth_in(left?) {
        return bool_answer(right);
    }
    Ok(Value::Truth(true))
}

pub fn iff_answer(left: Found, right: Found) -> Found
    ensures { result ≡ found_of (binary_answer iff (answer_of left) (answer_of right)) }
{
    let p = left?;
    let q = right?;
    Ok(Value::Truth(truth_in(p) == truth_in(q)))
}
