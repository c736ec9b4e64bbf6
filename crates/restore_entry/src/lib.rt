// The theorems on restoring over the bytes that an entry takes and gives. No code.
#![tactic(auto)]
