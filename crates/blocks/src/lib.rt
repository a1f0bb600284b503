// Blocks of samples in a buffer, and their exact elements: definitions in specs/, laws in proofs/, and no code.
#![tactic(auto)]
