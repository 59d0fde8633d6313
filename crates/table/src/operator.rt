// 01, Rows: the operators by number. "1 literal (b its value), 2 identifier (b), 3 after value of a variable (b), 4 TRUE, 5 FALSE, 6 bool"
// Numbers, not an enum: they are compared with the words of a table, which may hold any number.
pub const LITERAL: u64 = 1;

pub const IDENTIFIER: u64 = 2;

pub const AFTER: u64 = 3;

pub const TRUE: u64 = 4;

pub const FALSE: u64 = 5;

pub const BOOL: u64 = 6;

// "integers 10 plus, 11 minus, 12 times, 13 ÷, 14 mod, 15 negation"
pub const PLUS: u64 = 10;

pub const MINUS: u64 = 11;

pub const TIMES: u64 = 12;

pub const QUOTIENT: u64 = 13;

pub const REMAINDER: u64 = 14;

pub const NEGATION: u64 = 15;

// "predicates 20 = (both integer or both boolean), 21 <, 22 ≤, 30 ⊤, 31 ⊥, 32 ¬, 33 ∧, 34 ∨, 35 ⇒, 36 ⇔"
pub const EQUAL: u64 = 20;

pub const LESS: u64 = 21;

pub const AT_MOST: u64 = 22;

pub const TOP: u64 = 30;

pub const BOTTOM: u64 = 31;

pub const NOT: u64 = 32;

pub const AND: u64 = 33;

pub const OR: u64 = 34;

pub const IMPLIES: u64 = 35;

pub const IFF: u64 = 36;

// "40 'some value of' and 41 'some after value of' the identifier in b"
pub const SOME_VALUE: u64 = 40;

pub const SOME_AFTER_VALUE: u64 = 41;
