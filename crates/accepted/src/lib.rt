// What the record check's answers tell of the records: theorems, no code. All of its substance is in specs/ and proofs/.
#![tactic(auto)]
