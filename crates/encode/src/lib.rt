// A book as bytes, and that reading and writing are each other's inverse: definitions and theorems in specs/, and no code.
#![tactic(auto)]
