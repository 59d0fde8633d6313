// 01, Sequents: the list of a table's sequents.
#![tactic(auto)]

pub mod form;
pub mod kind;

// "An entry has a form and two numbers."
#[derive(Clone, Copy)]
pub struct Entry {
    pub form: u64,
    pub first: u64,
    pub second: u64,
}
