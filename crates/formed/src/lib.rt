// What accepted records read as. All of its substance is in specs/ (formed trees) and proofs/ (accepted records read as formed trees).
#![tactic(auto)]
