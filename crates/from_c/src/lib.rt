// Demand 3 from C: what chained calls of the C functions leave in a record's bytes, the array and the rows. It has no function.
#![tactic(auto)]
