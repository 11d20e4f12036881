// What a clause book means: definitions and theorems in specs/, and no code.
#![tactic(auto)]
