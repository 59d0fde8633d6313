// The meaning of formulas: definitions and laws; nothing runs here.
#![tactic(auto)]
