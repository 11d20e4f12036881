// The printed system, a list of S-expressions for each book: definitions and theorems in specs/, no code.
#![tactic(auto)]
