// Choices of a segment for each bidder: the cheapest quantities within a choice, the search through all choices (specs/), and that
// it finds the award (proofs/); no code.
#![tactic(auto)]
