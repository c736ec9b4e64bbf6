// The theorems on link order and restoring over the bytes that `split_file` takes and leaves. No code.
#![tactic(auto)]
