// No code: laws on lists and tables that several crates cite stand in proofs/.
#![tactic(auto)]
