// The sampling table as text: what its text is, which texts there are, and the record of each (specs/); the laws of that (proofs/).
// No code.
#![tactic(auto)]
