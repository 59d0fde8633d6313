// 02, request 5: the log of a run, and what replaying it answers.
#![tactic(auto)]

// The tags of a step's rows.
pub mod tags;
