// What a plain formula prints is proved in proofs/, over the words of specs/; there is no code here.
#![tactic(auto)]
