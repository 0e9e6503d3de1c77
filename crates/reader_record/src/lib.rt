// One reader's record whole, proxy and rooms, and what its calls do to it: definitions in specs/, theorems in proofs/. It has no code.
#![tactic(auto)]
