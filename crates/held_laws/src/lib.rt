// Laws about held blocks: see specs/. There is no code here.
#![tactic(auto)]
