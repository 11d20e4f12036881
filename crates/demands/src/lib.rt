// The demands on the kit, as theorems: read specs/Demands.antt first. No code.
#![tactic(auto)]
