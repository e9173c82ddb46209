// Demand 3: what any sequence of calls leaves in the stored bytes. It has no function.
#![tactic(auto)]
