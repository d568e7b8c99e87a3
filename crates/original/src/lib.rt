// Demand 2: the original's rsp.rs and math.rs transcribed in specs/, and the proof that the stage equals them on the domain of REFERENCE 18. No code.
#![tactic(auto)]
