// 01, Rows: "machine: 1 abstract, 2 concrete; class: 0 initialisation, 1 ordinary, 2 convergent"; 02, request 1: class 3, anticipated.
// Numbers, not an enum: they are compared with the words of a table, which may hold any number.
pub const ABSTRACT: u64 = 1;

pub const CONCRETE: u64 = 2;

pub const INITIALISATION: u64 = 0;

pub const ORDINARY: u64 = 1;

pub const CONVERGENT: u64 = 2;

pub const ANTICIPATED: u64 = 3;
