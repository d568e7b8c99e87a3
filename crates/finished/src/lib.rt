// Demand 3, a recorded triangle is finished: the statement stands in specs/, the theorem `finished` in proofs/Finished.antt. No code.
#![tactic(auto)]
