// No code: a tag that was cut is defined in specs/, what is read from it is proved in proofs/.
#![tactic(auto)]
