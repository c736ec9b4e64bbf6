// No code: the totals of a run are summed from its piece table (proofs/Totals.antt).
#![tactic(auto)]
