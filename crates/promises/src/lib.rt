// No code: what is promised of the calls stands in specs/, and its proof in proofs/.
#![tactic(auto)]
