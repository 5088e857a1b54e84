// No code: the definitions of planning, rules 1 to 4, and what a plan of a batch is.
#![tactic(auto)]
