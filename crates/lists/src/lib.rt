// Definitions (specs/) and laws (proofs/) on lists that every other crate cites. There is no code here.
#![tactic(auto)]
