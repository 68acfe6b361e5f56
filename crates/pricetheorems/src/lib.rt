// What bidders and buyers are told of a discount, of raised prices and of a struck bidder, and what they are not (specs/ and proofs/).
// No code.
#![tactic(auto)]
