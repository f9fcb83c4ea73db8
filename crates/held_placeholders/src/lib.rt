// That held blocks are what the Rust's numbered placeholders come to, wherever these lose none, is in specs/ and proofs/; there is no code here.
#![tactic(auto)]
