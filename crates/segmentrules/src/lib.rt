// The rules for the segments of a bid: 5, 7 and 8 of document 01.
#![tactic(auto)]

mod order;
mod segments;

pub use order::segments_rise;
pub use segments::{all_in_range, starts_not_negative};
