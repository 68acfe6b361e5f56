// The bytes of the page of an award, and what its columns say. This crate has no code.
#![tactic(auto)]
