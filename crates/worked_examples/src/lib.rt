// The worked examples that 01 stars as one table over the definitions, in specs/, and the proof that each holds, in proofs/; no code.
#![tactic(auto)]
