// Fractions against the cosines, and how near to an exact value a rounded one lies: definitions in specs/, laws in proofs/, and no
// code.
#![tactic(auto)]
