// Answers about the text, of the Rust module and, with byte 21 at 1, of the oracle's second printer: each a theorem about the definition of the text. The substance is in proofs/.
#![tactic(auto)]
