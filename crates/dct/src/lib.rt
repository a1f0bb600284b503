// The exact transform as mathematics, for any number of dimensions: definitions in specs/, laws in proofs/, and no code.
#![tactic(auto)]
