// The definitions of the conversion are in specs/; there is no code here.
#![tactic(auto)]
