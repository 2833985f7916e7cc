// Lemmas about whole calls; no code.
#![tactic(auto)]
