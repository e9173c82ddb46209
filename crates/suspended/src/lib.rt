// An operation over sequences of calls while it is under way, running or suspended. What is suspended stays as it was until it is resumed or dropped; an erase has left FFh in the pages that it has done, and at its end in its whole unit. It has no function.
#![tactic(auto)]
