// The grammar of expressions. All of its substance is in specs/ (chapter 9, and which expressions are the same) and proofs/ (a text has one reading).
#![tactic(auto)]
