// 01, Well-definedness: the conditions of the operators, one by one.
#![tactic(auto)]

ghost use Rattle.std.specs.Prelude.{◌≡◌};
ghost use Rattle.machine.specs.Operator.{operator_numbered};
ghost use Rattle.conditions.specs.Condition.{condition_of};

use table::operator;

// What an operator adds to the well-definedness of its operands: nothing; "¬(b = 0)"; "0 ≤ a ∧ 0 < b"; that the right side's is asked only where the left is
// true, or only where it is false.
#[derive(Clone, Copy)]
pub enum Condition {
    Nothing,
    Divisor,
    Operands,
    LeftTrue,
    LeftFalse,
}

// The condition of the operator that a number names, one by one in 01's order.
pub fn find_condition(number: u64) -> Condition
    ensures { result ≡ condition_of (operator_numbered number) }
{
    match number {
        operator::LITERAL => Condition::Nothing,
        operator::IDENTIFIER => Condition::Nothing,
        operator::AFTER => Condition::Nothing,
        operator::TRUE => Condition::Nothing,
        operator::FALSE => Condition::Nothing,
        operator::BOOL => Condition::Nothing,
        operator::PLUS => Condition::Nothing,
        operator::MINUS => Condition::Nothing,
        operator::TIMES => Condition::Nothing,
        operator::QUOTIENT => Condition::Divisor,
        operator::REMAINDER => Condition::Operands,
        operator::NEGATION => Condition::Nothing,
        operator::EQUAL => Condition::Nothing,
        operator::LESS => Condition::Nothing,
        operator::AT_MOST => Condition::Nothing,
        operator::TOP => Condition::Nothing,
        operator::BOTTOM => Condition::Nothing,
        operator::NOT => Condition::Nothing,
        operator::AND => Condition::LeftTrue,
        operator::OR => Condition::LeftFalse,
        operator::IMPLIES => Condition::LeftTrue,
        operator::IFF => Condition::Nothing,
        _ => Condition::Nothing, // unknown
    }
}
