// No code: the promises on the exported functions stand in specs/, their proofs in proofs/.
#![tactic(auto)]
