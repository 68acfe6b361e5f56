// A bid's supply function: which quantities it offers, and at what price, carriage with it; and how many blanks an order takes
// (order.rt).
// That a bid is accepted stands in the contracts and is no invariant of `Bid`: the readers make the same record before the rules
// are checked, and a second type for it would only be unwrapped here.
#![tactic(auto)]

ghost use Rattle.std.specs.Prelude.{◌≡◌, ◌+◌, ◌^◌, ◌<◌, length, get_or};
ghost use Rattle.book.specs.Entries.{bid_entries};
ghost use Rattle.book.specs.Accepted.{AcceptedBid};
ghost use Rattle.supply.specs.Supply.{on, segment0, delivered, supply_of, offer_of, segment_number};
ghost use Rattle.supply.specs.Places.{FoundAt};
ghost use Rattle.supply.specs.Asked.{HasSegment};

mod order;

use book::{Bid, Segment};
use money::{Blanks, Cents, CentsPerBlank};
pub use order::{capped, meets, passes, reaches};

// Segment 0 of every bidder: nothing, at price 0.
pub fn segment_0() -> Segment
    ensures { result ≡ segment0 }
{
    Segment {
        start: Blanks(0),
        end: Blanks(0),
        unit: CentsPerBlank(0),
        fixed: Cents(0),
    }
}

// From the start to the end, both counted.
#[tactic(auto, unfolding(crate::specs::Supply::on))]
fn on_segment(s: Segment, quantity: Blanks) -> bool
    ensures { result ≡ on s quantity.0 }
{
    (s.start..=s.end).contains(&quantity)
}

// A segment as it is delivered: the carriage is in its unit price.
fn delivered(s: Segment, carriage: CentsPerBlank) -> Segment
    requires { s.unit.0 + carriage.0 < 2 ^ 64 }
    ensures { result ≡ delivered carriage.0 s }
{
    Segment {
        unit: money::with_carriage(s.unit, carriage),
        ..s
    }
}

// The segment of a bid's supply function with this number.
#[tactic(auto, using(crate::proofs::Supply::number_held, crate::proofs::Supply::segment_none, crate::proofs::Supply::segment_own, crate::proofs::Accepted::carriage_fits))]
pub fn segment_of(bid: Bid, number: usize) -> Segment
    requires { HasSegment bid number }
    ensures number_in_bounds { number < length (supply_of (bid_entries bid)) }
    ensures value { result ≡ get_or (supply_of (bid_entries bid)) number segment0 }
{
    if number == 0 {
        return segment_0();
    }
    delivered(bid.segments[number - 1], bid.carriage)
}

// The number of the first segment of a bid's supply function, segment 0 with it, that a quantity is on.
fn find(bid: Bid, quantity: Blanks) -> Option<usize>
    requires { AcceptedBid (bid_entries bid) }
    ensures { FoundAt (supply_of (bid_entries bid)) quantity.0 result }
{
    for number in 0..=bid.count {
        if on_segment(segment_of(bid, number), quantity) {
            return Some(number);
        }
    }
    None
}

// The price of a quantity by a bid of an accepted book, where the bid offers it.
#[tactic(auto, using(crate::proofs::Offers::offer_nowhere, crate::proofs::Offers::offer_found))]
pub fn price_at(bid: Bid, quantity: Blanks) -> Option<Cents>
    requires { AcceptedBid (bid_entries bid) }
    ensures { result ≡ offer_of (supply_of (bid_entries bid)) quantity.0 }
{
    let number = find(bid, quantity)?;
    let there = segment_of(bid, number);
    Some(money::price(there.unit, quantity, there.fixed))
}

// The number of the segment that a quantity is on.
#[tactic(auto, using(crate::proofs::Places::number_at))]
pub fn segment_number(bid: Bid, quantity: Blanks) -> u64
    requires { AcceptedBid (bid_entries bid) }
    ensures { result ≡ segment_number (supply_of (bid_entries bid)) quantity.0 }
{
    find(bid, quantity).unwrap_or(0) as u64
}
