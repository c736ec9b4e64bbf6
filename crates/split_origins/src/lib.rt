// No code: a split's origin is the least number of the hand-made records that went into it (proofs/Table.antt).
#![tactic(auto)]
