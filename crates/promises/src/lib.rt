// No code: the promises on the definitions stand in specs/, their proofs in proofs/.
#![tactic(auto)]
