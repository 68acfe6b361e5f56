// What holds of every cleared book: demand 3 (specs/ and proofs/); no code.
#![tactic(auto)]
