// What std's tests of slices say, by the definitions: see specs/. There is no code here.
#![tactic(auto)]
