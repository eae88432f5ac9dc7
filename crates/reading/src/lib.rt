// What is promised of printed texts, on the public calls: demand 3, and that settings are only layout and the joined question exact. All of its substance is in specs/ (what is promised) and proofs/ (that it holds).
#![tactic(auto)]
