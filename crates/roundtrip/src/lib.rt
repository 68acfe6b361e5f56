// What is proved of reading and writing together (proofs/), over the definitions that the contracts of both cite. No code.
#![tactic(auto)]
