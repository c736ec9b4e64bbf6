// The laws that no stage tells two sets of tables apart that say the same of all that is there. No code.
#![tactic(auto)]
