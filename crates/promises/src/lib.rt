// The final statements; no code.
#![tactic(auto)]
