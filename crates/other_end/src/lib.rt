// The other end of the wire, and both ends with the network between them: definitions in specs/, theorems in proofs/. It has no code.
#![tactic(auto)]
