// The laws of the filling of gaps, over its definition. No code.
#![tactic(auto)]
