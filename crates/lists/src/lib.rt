// Lists and buffers: what the definitions of all other crates are written with. No functions.
#![tactic(auto)]
