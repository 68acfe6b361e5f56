// The bid book as a record. What makes a record a book, rules 3 to 8 of document 01, stands in specs/;
// `bidrules` and `bookrules` check it.
#![tactic(auto)]

ghost use Rattle.std.specs.Prelude.{◌≡◌, take};

use money::{Blanks, Cents, CentsPerBlank};

// From start to end, both counted, r blanks cost unit × r + fixed.
#[derive(Clone, Copy)]
pub struct Segment {
    pub start: Blanks,
    pub end: Blanks,
    pub unit: CentsPerBlank,
    pub fixed: Cents,
}

// A bidder's price curve, the first `count` of the segments; the others are ignored. Each blank costs the
// carriage besides: a supply function has it in the unit prices of its segments. An array and a count, since nothing is allocated and the
// count may say that there were more segments than the record holds.
#[derive(Clone, Copy)]
pub struct Bid {
    pub bidder: u64,
    pub carriage: CentsPerBlank,
    pub count: usize,
    pub segments: [Segment; 6],
}

// What the mints ask for: so many blanks, and how many more they accept.
#[derive(Clone, Copy)]
pub struct Order {
    pub demand: Blanks,
    pub allowance: Blanks,
}

// A bid book: the order, and the first `count` of the bids; the others are ignored. An array and a count, as in a bid;
// a book whose counts say more than the records hold is refused.
#[derive(Clone, Copy)]
pub struct Book {
    pub order: Order,
    pub count: usize,
    pub bids: [Bid; 8],
}

impl Bid {
    // The segments that the record counts and holds.
    pub fn listed(&self) -> &[Segment]
        ensures { result.now ≡ take self.now.count self.now.segments }
    {
        &self.segments[..self.count.min(6)]
    }
}

impl Book {
    // The bids that the record counts and holds.
    pub fn listed(&self) -> &[Bid]
        ensures { result.now ≡ take self.now.count self.now.bids }
    {
        &self.bids[..self.count.min(8)]
    }
}
