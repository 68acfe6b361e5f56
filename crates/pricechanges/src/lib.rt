// A book with a discount and a book with raised prices, and what becomes of divisions and award (specs/ and proofs/); no code.
#![tactic(auto)]
