// 01, Rows, an identifier: "kind: 1 constant, 2 abstract variable, 3 concrete variable, 4 abstract parameter, 5 concrete parameter"; 02, request 2:
// 6 shared variable.
// Numbers, not an enum: they are compared with the words of a table, which may hold any number.
pub const CONSTANT: u64 = 1;

pub const ABSTRACT_VARIABLE: u64 = 2;

pub const CONCRETE_VARIABLE: u64 = 3;

pub const ABSTRACT_PARAMETER: u64 = 4;

pub const CONCRETE_PARAMETER: u64 = 5;

pub const SHARED_VARIABLE: u64 = 6;

// "type: 1 integer, 2 boolean"
pub const INTEGER: u64 = 1;

pub const BOOLEAN: u64 = 2;
