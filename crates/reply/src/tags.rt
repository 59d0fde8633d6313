// 01, Sequents: "row 80 (kind, event or 0, item), rows 81 (hypotheses), row 82 (goal)", "rows 83", "one row 89 (refusal, row, 0)".
// Numbers, not an enum: they are columns of the rows that are written.
pub const SEQUENT: u64 = 80;

pub const HYPOTHESIS: u64 = 81;

pub const GOAL: u64 = 82;

pub const SPELLED: u64 = 83;

// 02, request 4: "After each row 80 comes a row 84".
pub const MENTIONED: u64 = 84;

pub const REFUSAL: u64 = 89;
