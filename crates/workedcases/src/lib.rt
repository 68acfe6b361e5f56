// The cases of document 01 that are marked P, and four cases of document 02, change 5, from the text to what is printed: one table
// and one proof (specs/ and proofs/); no code.
#![tactic(auto)]
