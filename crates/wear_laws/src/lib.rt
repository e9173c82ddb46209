// Request 7: what calls make of wear records. It has no function.
#![tactic(auto)]
