// No code: what holds of the word under the pointer, on the definitions alone (specs/).
#![tactic(auto)]
