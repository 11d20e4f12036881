// What the model check answers, and why it is right: definitions in specs/, theorems there and in proofs/, and no code.
#![tactic(auto)]
