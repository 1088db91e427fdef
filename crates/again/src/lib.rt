// The second pass over a file that is known to be good: definitions and laws that its crates share. No function.
#![tactic(auto)]
