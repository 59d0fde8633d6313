// 02, request 8: the order of faults before it, and which replies changed. No functions.
#![tactic(auto)]
