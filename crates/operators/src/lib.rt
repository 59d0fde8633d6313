// 01, Rows: the operators, one by one: how they use their columns, and their sorts.
#![tactic(auto)]

ghost use Rattle.std.specs.Prelude.{◌≡◌};
ghost use Rattle.rules.specs.Sorts.{operand_count, names_identifier};
ghost use Rattle.operators.specs.Operator.{operator_at, usage_of, meant, meant_shape};

use table::sort;

// How an operator uses its columns b and c: a literal's value, an identifier, a variable, or operands.
#[derive(Clone, Copy)]
pub enum Shape {
    Value,
    Identifier,
    Variable,
    NoOperand,
    OneOperand,
    TwoOperands,
    Unknown,
}

// An operator: its number, how it uses its columns, the sort of its operands and its own.
#[derive(Clone, Copy)]
pub struct Operator {
    pub number: u64,
    pub shape: Shape,
    pub operands: u64,
    pub sort: u64,
}

impl Operator {
    // An operator of a number, from its columns in the operators' table.
    fn new(number: u64, shape: Shape, operands: u64, sort: u64) -> Self
        ensures { result ≡ operator_at number shape operands sort }
    {
        Self {
            number,
            shape,
            operands,
            sort,
        }
    }
}

// The operator that a number names. 01, "Operators", a line each in its order: the number, how many operands it takes and of which sort, the sort that it makes.
pub fn find_operator(number: u64) -> Operator
    ensures { meant result ≡ usage_of number }
{
    match number {
        1 => Operator::new(number, Shape::Value, sort::NONE, sort::INTEGER), // literal (b its value)
        2 => Operator::new(number, Shape::Identifier, sort::NONE, sort::BY_TYPE), // identifier (b)
        3 => Operator::new(number, Shape::Variable, sort::NONE, sort::BY_TYPE), // after value of a variable (b)
        4 => Operator::new(number, Shape::NoOperand, sort::NONE, sort::BOOLEAN), // TRUE
        5 => Operator::new(number, Shape::NoOperand, sort::NONE, sort::BOOLEAN), // FALSE
        6 => Operator::new(number, Shape::OneOperand, sort::PREDICATE, sort::BOOLEAN), // bool
        10 => Operator::new(number, Shape::TwoOperands, sort::INTEGER, sort::INTEGER), // plus
        11 => Operator::new(number, Shape::TwoOperands, sort::INTEGER, sort::INTEGER), // minus
        12 => Operator::new(number, Shape::TwoOperands, sort::INTEGER, sort::INTEGER), // times
        13 => Operator::new(number, Shape::TwoOperands, sort::INTEGER, sort::INTEGER), // ÷
        14 => Operator::new(number, Shape::TwoOperands, sort::INTEGER, sort::INTEGER), // mod
        15 => Operator::new(number, Shape::OneOperand, sort::INTEGER, sort::INTEGER), // negation
        20 => Operator::new(number, Shape::TwoOperands, sort::SAME_TYPE, sort::PREDICATE), // = (both integer or both boolean)
        21 => Operator::new(number, Shape::TwoOperands, sort::INTEGER, sort::PREDICATE), // <
        22 => Operator::new(number, Shape::TwoOperands, sort::INTEGER, sort::PREDICATE), // ≤
        30 => Operator::new(number, Shape::NoOperand, sort::NONE, sort::PREDICATE), // ⊤
        31 => Operator::new(number, Shape::NoOperand, sort::NONE, sort::PREDICATE), // ⊥
        32 => Operator::new(number, Shape::OneOperand, sort::PREDICATE, sort::PREDICATE), // ¬
        33 => Operator::new(number, Shape::TwoOperands, sort::PREDICATE, sort::PREDICATE), // ∧
        34 => Operator::new(number, Shape::TwoOperands, sort::PREDICATE, sort::PREDICATE), // ∨
        35 => Operator::new(number, Shape::TwoOperands, sort::PREDICATE, sort::PREDICATE), // ⇒
        36 => Operator::new(number, Shape::TwoOperands, sort::PREDICATE, sort::PREDICATE), // ⇔
        _ => Operator::new(number, Shape::Unknown, sort::NONE, sort::NONE), // unknown
    }
}

// How many of b and c are operands.
pub fn operand_count(shape: Shape) -> u64
    ensures { result ≡ operand_count (meant_shape shape) }
{
    match shape {
        Shape::Value => 0,
        Shape::Identifier => 0,
        Shape::Variable => 0,
        Shape::NoOperand => 0,
        Shape::OneOperand => 1,
        Shape::TwoOperands => 2,
        Shape::Unknown => 0,
    }
}

// Whether column b names an identifier.
pub fn names_identifier(shape: Shape) -> bool
    ensures { result ≡ names_identifier (meant_shape shape) }
{
    match shape {
        Shape::Value => false,
        Shape::Identifier => true,
        Shape::Variable => true,
        Shape::NoOperand => false,
        Shape::OneOperand => false,
        Shape::TwoOperands => false,
        Shape::Unknown => false,
    }
}
