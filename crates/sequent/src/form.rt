// 01, Sequents: the forms of entries by number.
// Numbers, not an enum: `spell` and `mentioned_row` answer for every number that an entry has.
pub const WRITTEN: u64 = 1;

pub const PRIMED: u64 = 2;

pub const DEFINED: u64 = 3;

pub const MOVES: u64 = 4;

pub const FEASIBLE: u64 = 5;

pub const WITNESSED: u64 = 6;

pub const NATURAL: u64 = 7;

pub const DECREASES: u64 = 8;

pub const NOT_INCREASED: u64 = 9;

pub const UNCHANGED: u64 = 10;
