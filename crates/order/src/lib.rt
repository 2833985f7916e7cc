// Theorems on the order of the code's writes; no code.
#![tactic(auto)]
