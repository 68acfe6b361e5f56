// What the bidders left can add to a choice, worked out before the search: for the bidders from each one on, at most 32 classes of ways to
// complete a choice, each with the range of their blanks and the least of their charges by each price. A table of all classes is lent to
// the search.
#![tactic(auto)]

ghost use Rattle.std.specs.Prelude.{◌≡◌, ◌+◌, ◌*◌, ◌<◌};
ghost use Rattle.book.specs.Entries.{bid_entries};
ghost use Rattle.supply.specs.Supply.{supply_of};
ghost use Rattle.completions.specs.Classes.{Graded, class_count, Surveyable, Surveyed};
ghost use Rattle.completions.specs.Steps.{joined, Addable, Added, ClassExtendable, ClassExtended, Extendable, ExtendedBy, BidExtendable, ExtendedByBid};

use book::{Bid, Book, Order};
use charges::{Charges, Prices, Sums};
use money::Blanks;

// The classes for the bidders from `at` on begin with the class 32 × at. A class is of the blanks from its low on and
// below its high, so that one of zeros is of none. Its numbers are over the rest of eight bidders, so that sums of them fit.
#[derive(Drop)]
pub struct Table {
    pub classes: [Sums; 288],
    ghost graded: { Graded classes },
}

// A bidder whose classes are worked out: its index, the order, and the most that the bidders from it on can add.
#[derive(Clone, Copy)]
struct Turn {
    at: usize,
    order: Order,
    most: Blanks,
    ghost held: { at < 8 },
}

// A class that has what either has.
fn joined(a: Sums, b: Sums) -> Sums
    ensures { result ≡ joined a b }
{
    if a.high == Blanks(0) {
        return b;
    }
    Sums {
        low: a.low.min(b.low),
        high: a.high.max(b.high),
        charges: Charges {
            first: a.charges.first.min(b.charges.first),
            second: a.charges.second.min(b.charges.second),
        },
    }
}

// Which of the 32 classes takes so many blanks, of at most `most`: any would do.
fn class_of(blanks: Blanks, most: Blanks) -> usize
    ensures { result < 32 }
{
    let class = blanks.0.saturating_mul(32) / most.0.saturating_add(1);
    class.min(31) as usize
}

impl Table {
    // One class more for the bidders from the turn's on, joined into one that is there.
    fn add_class(&mut self, turn: Turn, x: Sums)
        requires { Addable turn.at x }
        ensures { Added turn.at x self.old.classes self.new.classes }
    {
        let k = 32 * turn.at + class_of(x.low, turn.most);
        let here = self.classes[k];
        self.classes[k] = joined(here, x);
    }

    // A class of the bidders after the turn's, with one segment more. What is above demand plus allowance is left out.
    fn with_class(&mut self, turn: Turn, class: Sums, more: Sums)
        requires { ClassExtendable turn.at class more }
        ensures { ClassExtended turn.order turn.at class more self.old.classes self.new.classes }
    {
        if class.high == Blanks(0) {
            return;
        }
        let next = class + more;
        if !supply::passes(turn.order, next.low) {
            self.add_class(turn, next);
        }
    }

    // The same with each of their classes; by the index, since the table is written meanwhile.
    fn with_segment(&mut self, turn: Turn, more: Sums)
        requires { Extendable more }
        ensures { ExtendedBy turn.order turn.at more 32 self.old.classes self.new.classes }
    {
        for i in 0..32 {
            let class = self.classes[32 * (turn.at + 1) + i];
            self.with_class(turn, class, more);
        }
    }

    // And with each segment of a bid, by their numbers: segment 0 is not stored, so there is no slice of them.
    fn with_bid(&mut self, turn: Turn, bid: Bid, prices: Prices)
        requires { BidExtendable bid prices }
        ensures { ExtendedByBid turn.order turn.at prices (supply_of (bid_entries bid)) self.old.classes self.new.classes }
    {
        let last = bid.count;
        for j in (0..=last).rev() {
            let s = supply::segment_of(bid, j);
            self.with_segment(turn, charges::charged(s, turn.order, prices));
        }
    }
}

// The classes of a book's bidders, from the last to the first, by the index that their classes have. It is pub for the search.
pub fn survey(table: &mut Table, book: Book, prices: Prices)
    requires { Surveyable book prices }
    ensures { Surveyed book prices table.new.classes }
{
    let order = book.order;
    let mut most = Blanks(0);
    // With no bidder left one way is left, which adds no blank: from 0 on and below 1.
    table.classes[32 * book.count] = Sums {
        low: Blanks(0),
        high: Blanks(1),
        charges: Charges {
            first: 0,
            second: 0,
        },
    };
    for at in (0..book.count).rev() {
        let bid = book.bids[at];
        let last = supply::segment_of(bid, bid.count);
        most = supply::capped(order, Blanks(most.0.saturating_add(last.end.0)));
        let turn = Turn { at, order, most };
        table.with_bid(turn, bid, prices);
    }
}

// How many classes there are for so many bidders left. It is pub for `hopeless`.
pub fn class_count(left: usize) -> usize
    ensures { result ≡ class_count left }
{
    if left == 0 {
        return 1;
    }
    32
}
