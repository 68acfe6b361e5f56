// What holds of the page of every cleared book (proofs/); no code.
#![tactic(auto)]
