// 02, request 5: "A run is row 90 (event), then rows 91 (identifier, value; booleans 0 or 1)".
// Numbers, not an enum: they are compared with the rows of a log, which may hold any number.
pub const STEP: u64 = 90;

pub const VALUE: u64 = 91;
