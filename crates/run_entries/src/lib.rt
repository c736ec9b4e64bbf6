// The theorem that a run of a file is the stages' entries one after another, and the numbers that a run can give. No code.
#![tactic(auto)]
