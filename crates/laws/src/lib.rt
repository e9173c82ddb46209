// Laws for the driver team: what writes that are taken and run to the end leave. It has no function.
#![tactic(auto)]
