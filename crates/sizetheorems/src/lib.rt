// What the three figures of every accepted book tell (proofs/); no code.
#![tactic(auto)]
