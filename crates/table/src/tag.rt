// 01, Rows: "A tag is one of 10, 20, 30 to 32, 40, 50 to 52, 60, 70".
// Numbers, not an enum: they are compared with the words of a table, which may hold any number.
pub const IDENTIFIER: u64 = 10;

pub const NODE: u64 = 20;

pub const AXIOM: u64 = 30;

pub const ABSTRACT_INVARIANT: u64 = 31;

pub const CONCRETE_INVARIANT: u64 = 32;

pub const EVENT: u64 = 40;

pub const GUARD: u64 = 50;

pub const BECOMES_EQUAL: u64 = 51;

pub const BECOMES_SUCH: u64 = 52;

pub const WITNESS: u64 = 60;

pub const VARIANT: u64 = 70;
