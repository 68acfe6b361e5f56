// Records as a reader fills them: all zeros at first, and then one entry after the other.
#![tactic(auto)]

ghost use Rattle.std.specs.Prelude.{◌≡◌, ◌<◌};
ghost use Rattle.booktext.specs.Record.{empty_segment, empty_bid, empty_book};
ghost use Rattle.bookrecord.specs.Adding.{with_segment, with_bid};

use book::{Bid, Book, Order, Segment};
use money::{Blanks, Cents, CentsPerBlank};

fn empty_segment() -> Segment
    ensures { result ≡ empty_segment }
{
    Segment {
        start: Blanks(0),
        end: Blanks(0),
        unit: CentsPerBlank(0),
        fixed: Cents(0),
    }
}

pub fn empty_bid() -> Bid
    ensures { result ≡ empty_bid }
{
    let segment = empty_segment();
    Bid {
        bidder: 0,
        carriage: CentsPerBlank(0),
        count: 0,
        segments: [segment; 6],
    }
}

pub fn empty_book() -> Book
    ensures { result ≡ empty_book }
{
    let bid = empty_bid();
    Book {
        order: Order {
            demand: Blanks(0),
            allowance: Blanks(0),
        },
        count: 0,
        bids: [bid; 8],
    }
}

// Where the array is full the segment is counted and not stored.
pub fn add_segment(bid: &mut Bid, segment: Segment)
    requires { bid.now.count < 18446744073709551615 }
    ensures { bid.new ≡ with_segment bid.old segment }
{
    lists::add(&mut bid.segments, &mut bid.count, segment);
}

// Where the array is full the bid is counted and not stored.
pub fn add_bid(book: &mut Book, bid: Bid)
    requires { book.now.count < 18446744073709551615 }
    ensures { book.new ≡ with_bid book.old bid }
{
    lists::add(&mut book.bids, &mut book.count, bid);
}
