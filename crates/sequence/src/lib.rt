// A sequence of commands over one set of areas: its definitions stand in specs/Sequence.antt, its laws in proofs/. No code.
#![tactic(auto)]
