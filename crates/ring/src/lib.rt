// The ring of 1 and 2·cos(k·π/16) as mathematics: definitions in specs/, laws in proofs/, and no code.
#![tactic(auto)]
