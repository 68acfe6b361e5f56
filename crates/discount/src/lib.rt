// A discount: so many cents off the unit price of all segments of a bid, and the largest that leaves an accepted book.
#![tactic(auto)]

ghost use Rattle.std.specs.Prelude.{◌≡◌, ◌≤◌};
ghost use Rattle.book.specs.Entries.{bid_entries};
ghost use Rattle.book.specs.Accepted.{AcceptedBid};
ghost use Rattle.discount.specs.Discount.{segment_off, bid_off};
ghost use Rattle.discount.specs.Asked.{KeepsRules, MostOff, Largest, BidHas, CanTake, TakenOff};

use book::{Bid, Book, Segment};
use money::CentsPerBlank;

// The most that can be taken off a segment: no more than its unit price, by rule 5, and than its price at the start has for each
// blank, by rule 8.
fn most_off(s: Segment) -> CentsPerBlank
    requires { KeepsRules s }
    ensures { MostOff s result.0 }
{
    let price = money::price(s.unit, s.start, s.fixed);
    let for_each = money::magnitude(price) / s.start.0;
    CentsPerBlank(s.unit.0.min(for_each))
}

// The largest discount of a bid of an accepted book that leaves it accepted: each up to it does, and none above it. It is pub, as
// `book_off` is, for the search for the smallest that wins.
pub fn largest(bid: Bid) -> CentsPerBlank
    requires { AcceptedBid (bid_entries bid) }
    ensures largest { Largest (bid_entries bid) result.0 }
    ensures upper_bound { result.0 ≤ 1000000 }
{
    let mut most = CentsPerBlank(1_000_000);
    for s in bid.listed() {
        most = most_off(*s).min(most);
    }
    most
}

// The segment with so many cents off its unit price. Nothing else takes cents off a unit price.
fn segment_off(s: Segment, cents: CentsPerBlank) -> Segment
    requires { cents.0 ≤ s.unit.0 }
    ensures { result ≡ segment_off cents.0 s }
{
    let unit = CentsPerBlank(s.unit.0 - cents.0);
    Segment { unit, ..s }
}

// The bid with so many cents off each unit price. Each segment is stored by its index: of what is written through `iter_mut` a proof knows
// only how many there are.
fn bid_off(bid: Bid, cents: CentsPerBlank) -> Bid
    requires { BidHas bid cents.0 }
    ensures { bid_entries result ≡ bid_off cents.0 (bid_entries bid) }
{
    let mut cheaper = bid;
    for i in 0..bid.count {
        cheaper.segments[i] = segment_off(bid.segments[i], cents);
    }
    cheaper
}

// The book with so many cents off the bid with this index, and every other bid as it is.
pub fn book_off(book: Book, at: usize, cents: CentsPerBlank) -> Book
    requires { CanTake book at cents.0 }
    ensures { TakenOff book at cents.0 result }
{
    let mut changed = book;
    changed.bids[at] = bid_off(book.bids[at], cents);
    changed
}
