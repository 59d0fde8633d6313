// The note of a formula's node, made from those of its operands: the identifiers that the formula and its well-definedness mention, and whether it divides.
#![tactic(auto)]

ghost use Rattle.std.specs.Prelude.{◌≡◌};
ghost use Rattle.operators.specs.Operator.{meant_shape};
ghost use Rattle.notes.specs.Notes.{empty_note, identifier_note, plain_pair, division_pair, guarded_pair, pair_note, note_by};

use conditions::Condition;
use operators::Shape;
use sets::single;

// Of a formula: the set of its identifiers, the set of those of its well-definedness, and whether it divides.
#[derive(Clone, Copy)]
pub struct Note {
    pub mentioned: u64,
    pub defined: u64,
    pub divides: bool,
}

// Of a formula that mentions nothing.
pub fn empty_note() -> Note
    ensures { result ≡ empty_note }
{
    Note {
        mentioned: 0,
        defined: 0,
        divides: false,
    }
}

// Of an identifier, by its present or its after value.
fn identifier_note(x: u64) -> Note
    ensures { result ≡ identifier_note x }
{
    Note {
        mentioned: single(x),
        defined: 0,
        divides: false,
    }
}

// Of a pair whose well-definedness is that of both sides.
fn plain_pair(left: Note, right: Note) -> Note
    ensures { result ≡ plain_pair left right }
{
    Note {
        mentioned: left.mentioned | right.mentioned,
        defined: left.defined | right.defined,
        divides: left.divides | right.divides,
    }
}

// Of ÷ and mod, whose well-definedness, "(WD(a) ∧ WD(b)) ∧ ..", mentions these again.
fn division_pair(left: Note, right: Note, again: u64) -> Note
    ensures { result ≡ division_pair left right again }
{
    Note {
        mentioned: left.mentioned | right.mentioned,
        defined: (left.defined | right.defined) | again,
        divides: true,
    }
}

// Of ∧, ⇒ and ∨: "WD(P) ∧ (P ⇒ WD(Q))", "WD(P) ∧ (P ∨ WD(Q))".
fn guarded_pair(left: Note, right: Note) -> Note
    ensures { result ≡ guarded_pair left right }
{
    Note {
        mentioned: left.mentioned | right.mentioned,
        defined: left.defined | (left.mentioned | right.defined),
        divides: left.divides | right.divides,
    }
}

// Of a pair, by its operator's condition: "¬(b = 0)" mentions what the divisor does, "0 ≤ a ∧ 0 < b" what both operands do.
fn pair_note(condition: Condition, left: Note, right: Note) -> Note
    ensures { result ≡ pair_note condition left right }
{
    match condition {
        Condition::Nothing => plain_pair(left, right),
        Condition::Divisor => division_pair(left, right, right.mentioned),
        Condition::Operands => division_pair(left, right, left.mentioned | right.mentioned),
        Condition::LeftTrue => guarded_pair(left, right),
        Condition::LeftFalse => guarded_pair(left, right),
    }
}

// Of a node, by its operator's shape and condition, its column b and the notes of its operands.
pub fn shaped_note(shape: Shape, condition: Condition, b: u64, left: Note, right: Note) -> Note
    ensures { result ≡ note_by (meant_shape shape) condition b left right }
{
    match shape {
        Shape::Value => empty_note(),
        Shape::Identifier => identifier_note(b),
        Shape::Variable => identifier_note(b),
        Shape::NoOperand => empty_note(),
        Shape::OneOperand => left,
        Shape::TwoOperands => pair_note(condition, left, right),
        Shape::Unknown => empty_note(),
    }
}
