// 01, Refusals: the rules that a table must meet, and why it is refused.
#![tactic(auto)]

// Why a table, a log or what is asked of them is refused: the refusal's number, and the row that it names or 0.
#[derive(Clone, Copy)]
pub struct Refusal {
    pub number: u64,
    pub row: u64,
}

impl Refusal {
    // Numbers, not an enum: "Checks run by number", and so do the definitions `offends` and `first_check`.
    // Of a table: the checks from 3 on, by 01's words for their refusals; the last concerns no row.
    pub const TAG: u64 = 3;

    pub const FULL: u64 = 4;

    pub const EVENT: u64 = 5;

    pub const IDENTIFIER: u64 = 6;

    pub const REFERENCE: u64 = 7;

    pub const SORT: u64 = 8;

    pub const USE: u64 = 9;

    pub const SIGHT: u64 = 10;

    pub const TWICE: u64 = 11;

    pub const MISSING: u64 = 12;

    // Of what is asked: the sequent, the entry, or too little room for the rows.
    pub const SEQUENT: u64 = 13;

    pub const ENTRY: u64 = 14;

    pub const ROOM: u64 = 15;

    // Of a log: a term outside 64 bits, an undefined one, a bad row or a step that isn't allowed.
    pub const OUTSIDE: u64 = 16;

    pub const UNDEFINED: u64 = 17;

    pub const LOG: u64 = 18;
}
