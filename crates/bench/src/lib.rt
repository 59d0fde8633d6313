// 02, request 6: the state of the simulator bench, and what pressing an event answers.
#![tactic(auto)]

// One identifier of a state: "a lent list of records, one for each identifier, with value (signed 64 bits) and type". Record i is that of identifier i + 1; sort is its type.
#[repr(C)]
#[derive(Clone, Copy)]
pub struct Record {
    pub value: i64,
    pub sort: u64,
}
