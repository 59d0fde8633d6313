// 01, Table L and marked cases, proved from the definitions. No functions.
#![tactic(auto)]
