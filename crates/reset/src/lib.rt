// Demand 3 on one page, and its theorems: the history of every part, and wake, arm, reset equals a fresh power-up. It has no function.
#![tactic(auto)]
