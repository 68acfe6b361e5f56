// Hints for the search: prices of a blank to bound it with, and segments to begin with. Any would do, so nothing is proved of them but
// that the prices are in range; good ones make it fast.
#![tactic(auto)]

ghost use Rattle.std.specs.Prelude.{◌≤◌};
ghost use Rattle.book.specs.Entries.{bid_entries};
ghost use Rattle.book.specs.Accepted.{AcceptedBid};
ghost use Rattle.charges.specs.Charge.{highest};
ghost use Rattle.hints.specs.Asked.{HintedBid, HintedBook, HintedBookBy};

use book::{Bid, Book, Order, Segment};
use comparison::PricedDivision;
use money::{Blanks, CentsPerBlank};

// The number of the segment that is charged least by a price, the later of equals; 0 where none starts within what the order takes. A
// loop: the closures of a chain would have to be callable with any number, and `segment_of` asks for one of the bid's.
fn favourite(bid: Bid, order: Order, price: CentsPerBlank) -> usize
    requires { HintedBid bid price.0 }
    ensures { result ≤ bid.count }
{
    let mut best: Option<(u64, usize)> = None;
    let last = bid.count;
    for j in (0..=last).rev() {
        let s = supply::segment_of(bid, j);
        if !supply::passes(order, s.start) {
            let here = charges::charge(s, order, price);
            if !best.is_some_and(|(least, _)| least <= here) {
                best = Some((here, j));
            }
        }
    }
    best.map_or(0, |(_, number)| number)
}

// What a bidder would sell on a segment by a price.
fn wanted(s: Segment, order: Order, price: CentsPerBlank) -> Blanks {
    if s.unit <= price {
        return s.end.min(order.demand);
    }
    s.start
}

// What all would sell, each on the segment that it favours. No sum is so large that it is cut: that only shows that it fits.
fn sold(book: Book, price: CentsPerBlank) -> Blanks
    requires { HintedBookBy book price.0 }
{
    let mut sum: u64 = 0;
    for bid in book.listed() {
        let number = favourite(*bid, book.order, price);
        let s = supply::segment_of(*bid, number);
        sum = sum.saturating_add(wanted(s, book.order, price).0);
    }
    Blanks(sum)
}

// The least price at which that reaches the demand, or 2^30 where none below does: the best of all prices to bound the whole search
// with. It is pub for the search, as the other hints are. The loop counts no index: it halves a range, and only that it ends is
// proved of it; `toodear::smallest`, which halves one too, proves what it finds and how many tests are made.
pub fn balance(book: Book) -> CentsPerBlank
    requires { HintedBook book }
    ensures { result.0 ≤ highest }
{
    let mut low: u64 = 0;
    let mut high: u64 = 1073741824;
    while low < high {
        let middle = low + (high - low) / 2;
        if sold(book, CentsPerBlank(middle)) < book.order.demand {
            low = middle + 1;
        } else {
            high = middle;
        }
    }
    CentsPerBlank(low)
}

// The number of the segment that each bidder favours. The contract does not say that the bid has it: whoever uses a number tests it.
pub fn favourites(book: Book, price: CentsPerBlank) -> [usize; 8]
    requires { HintedBookBy book price.0 }
{
    let mut numbers = [0; 8];
    for (i, bid) in book.listed().iter().enumerate() {
        let number = favourite(*bid, book.order, price);
        numbers[i] = number;
    }
    numbers
}

// The segment that a quantity is on.
fn sold_on(bid: Bid, quantity: Blanks) -> Segment
    requires { AcceptedBid (bid_entries bid) }
    ensures { result.unit.0 ≤ highest }
{
    let number = supply::segment_number(bid, quantity).min(bid.count as u64);
    supply::segment_of(bid, number as usize)
}

// A second price: in a first division the unit price of a bidder that stands strictly inside its segment, or else the largest unit price
// that is paid; without one, three quarters of the first price.
pub fn second_price(
    book: Book,
    division: Option<PricedDivision>,
    price: CentsPerBlank,
) -> CentsPerBlank
    requires { HintedBookBy book price.0 }
    ensures { result.0 ≤ highest }
{
    let Some(division) = division else {
        let lower = price.0 - price.0 / 4;
        return CentsPerBlank(lower);
    };
    let mut paid = CentsPerBlank(0);
    for (i, bid) in book.listed().iter().enumerate() {
        let quantity = division.quantities[i];
        let s = sold_on(*bid, quantity);
        if s.start < quantity && quantity < s.end {
            return s.unit;
        }
        paid = paid.max(s.unit);
    }
    paid
}
