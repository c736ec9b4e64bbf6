// The stage tables of a loaded file, and the laws that they are read as the file is and pass their checks. No code.
#![tactic(auto)]
