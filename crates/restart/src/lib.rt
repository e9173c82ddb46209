// An interrupted erase, done over: what a cut leaves, and what the erase leaves that is begun again. It has no function.
#![tactic(auto)]
