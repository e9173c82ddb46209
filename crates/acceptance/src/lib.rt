// Request 13: which scripts a check accepts. It has no function.
#![tactic(auto)]
