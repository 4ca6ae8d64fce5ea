// Laws of lists. There is no code.
#![tactic(auto)]
