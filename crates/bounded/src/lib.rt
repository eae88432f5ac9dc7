// No accepted tree meets a cap of the pen. The substance is in proofs/.
#![tactic(auto)]
