// The cases worked on paper, proved against the definitions. It has no function.
#![tactic(auto)]
