// No code: the promises, and their proofs.
#![tactic(auto)]
