// No code: that each public function answers in one way stands in proofs/.
#![tactic(auto)]
