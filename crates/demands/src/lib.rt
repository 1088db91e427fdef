// No function: the three demands stand in specs/, their proof in proofs/.
#![tactic(auto)]
