// Derivations and traces as lists of numbers, and what their checks answer: definitions in specs/, theorems there and in proofs/, and no code.
#![tactic(auto)]
