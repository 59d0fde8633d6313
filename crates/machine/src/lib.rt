// The machines that a table describes. No functions yet.
#![tactic(auto)]
