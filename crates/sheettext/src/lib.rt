// The bytes of the award sheet. This crate has no code.
#![tactic(auto)]
