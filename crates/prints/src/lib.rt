// Thirteen cases of the rules: the table stands in specs/Prints.antt, its proof in proofs/Proved.antt. No code.
#![tactic(auto)]
