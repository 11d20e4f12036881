// S-expressions, their text and its reading: definitions and theorems in specs/, no code.
#![tactic(auto)]
