// The specification as definitions, a file for each of its headings, and their laws. It has no function.
#![tactic(auto)]
