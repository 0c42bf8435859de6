// No code: what is promised of listings stands in specs/, the proofs in proofs/.
#![tactic(auto)]
