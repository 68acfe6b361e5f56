// Demand 3, from the bytes of a text to the bytes of its award, as a sheet or as a page (specs/ and proofs/); no code.
#![tactic(auto)]
