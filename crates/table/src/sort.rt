// 01, Rows: the sorts of formulas, integer and boolean by the numbers of the types.
// Numbers, not an enum: a type is the number in an identifier's row.
use crate::identifier;

pub const INTEGER: u64 = identifier::INTEGER;

pub const BOOLEAN: u64 = identifier::BOOLEAN;

pub const PREDICATE: u64 = 3;

// Where an operator names no sort: it has no operands, or it is unknown.
pub const NONE: u64 = 0;

// The type of the identifier in b, of operators 2 and 3.
pub const BY_TYPE: u64 = 0;

// "20 = (both integer or both boolean)": of its operands.
pub const SAME_TYPE: u64 = 0;
