// No code: laws on lists, tests and searches that every crate above cites stand in specs/.
#![tactic(auto)]
