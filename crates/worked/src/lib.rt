// A worked table whose sequents are proved valid, to which the theorem on runs applies. No functions.
#![tactic(auto)]
