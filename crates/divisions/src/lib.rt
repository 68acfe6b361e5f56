// The divisions of an order among bidders, and the award, the best of them (specs/ and proofs/); no code.
#![tactic(auto)]
