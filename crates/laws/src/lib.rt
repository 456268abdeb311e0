// Laws that several crates' proofs cite: in proofs/, and no code.
#![tactic(auto)]
