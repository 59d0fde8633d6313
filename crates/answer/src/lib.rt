// 02, request 5: evaluation in signed 64 bits as a definition, and its laws; no functions.
#![tactic(auto)]
