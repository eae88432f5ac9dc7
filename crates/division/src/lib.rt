// How a text is divided into its tokens. All of its substance is in specs/ (where a space is needed) and proofs/.
#![tactic(auto)]
