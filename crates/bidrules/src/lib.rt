// A bid checked on its line: rules 4 to 8 of document 01.
#![tactic(auto)]

ghost use Rattle.std.specs.Prelude.{◌≡◌};
ghost use Rattle.book.specs.Entries.{bid_entries};
ghost use Rattle.book.specs.Rules.{bid_in_range, bid_verdict};

use book::Bid;
use money::CentsPerBlank;
use refusal::{Rule, Verdict};

// Rule 5, of a bid.
#[tactic(auto, unfolding(book::specs::Rules::bid_in_range))]
fn in_range(bid: &Bid) -> bool
    ensures { result ≡ bid_in_range (bid_entries bid.now) }
{
    (1..=9_999).contains(&bid.bidder)
        && bid.carriage <= CentsPerBlank(10_000)
        && segmentrules::all_in_range(bid.listed())
}

// The first rule that a bid breaks, if it breaks one. `before` is the bidder of the bid before, or 0
// for the first, as in the definition that the contract names.
#[tactic(auto, unfolding(book::specs::Rules::bid_verdict))]
pub fn check_bid(bid: &Bid, line: u64, before: u64) -> Verdict
    ensures { result ≡ bid_verdict line before (bid_entries bid.now) }
{
    let segments = bid.listed();
    Rule::SegmentCount.unless((1..=6).contains(&bid.count), line)?;
    Rule::Range.unless(in_range(bid), line)?;
    Rule::BidderOrder.unless(before < bid.bidder, line)?;
    Rule::SegmentOrder.unless(segmentrules::segments_rise(segments), line)?;
    Rule::NegativePrice.unless(segmentrules::starts_not_negative(segments), line)
}
