// No code: what holds of the stages' results, on the definitions alone (specs/ and proofs/).
#![tactic(auto)]
