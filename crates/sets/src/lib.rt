// The vocabulary of sets: definitions in specs/, their laws in proofs/. It has no code.
#![tactic(auto)]
