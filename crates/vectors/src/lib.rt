// No function: the proved cases of document 01 stand in specs/, their proof in proofs/.
#![tactic(auto)]
