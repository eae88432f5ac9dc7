// The definition of the text. All of its substance is in specs/ (what is to be believed) and proofs/ (laws about it).
#![tactic(auto)]
