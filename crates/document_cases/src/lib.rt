// No code: document 01's cases P1 to P8 as one table with one claim (proofs/Claim.antt).
#![tactic(auto)]
