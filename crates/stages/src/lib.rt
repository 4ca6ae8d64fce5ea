// The six steps of reduction as definitions, and what holds of them. There is no code.
#![tactic(auto)]
