// Request 12: what a map of blank pages says, and what calls make of it. It has no function.
#![tactic(auto)]
