// 01, The run that a table describes: what a run is, and what valid sequents say of every run. No functions.
#![tactic(auto)]
