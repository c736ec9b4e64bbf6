// No code: what a run leaves can be listed (proofs/Readable.antt).
#![tactic(auto)]
