// Sound expressions. All of its substance is in specs/ (what is sound) and proofs/ (the text of a sound expression has its tokens, and these its derivation).
#![tactic(auto)]
