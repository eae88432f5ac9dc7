// The words of GLSL and the division of a text into them. All of its substance is in specs/ (words, numbers, longest match) and proofs/ (laws about them).
#![tactic(auto)]
