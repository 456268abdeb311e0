// Bounds on floats that survive rounding: in proofs/, and no code.
#![tactic(auto)]
