// Discounts tried: each by one search for the award, without the totals without a bidder. Book and index stay two parameters: a struct of
// both would copy the book once more and say no more.
ghost use Rattle.discount.specs.Asked.{CanTake};
ghost use Rattle.toodear.specs.Asked.{AwardOff, SellsOff, Winnable, SmallestOff};

use book::Book;
use comparison::PricedDivision;
use money::{Blanks, CentsPerBlank};

// The award with so many cents off the bid with this index, if there is one. It is pub, as `smallest` is, for the entry.
pub fn best_off(book: Book, at: usize, cents: CentsPerBlank) -> Option<PricedDivision>
    requires { CanTake book at cents.0 }
    ensures { AwardOff book at cents.0 result }
{
    search::best_division(discount::book_off(book, at, cents))
}

// Whether the bidder sells something then.
fn sells(book: Book, at: usize, cents: CentsPerBlank) -> bool
    requires { CanTake book at cents.0 }
    ensures { SellsOff book at cents.0 result }
{
    match best_off(book, at, cents) {
        Some(best) => Blanks(0) < best.quantities[at],
        None => false,
    }
}

// The smallest discount that sells something, where `most` does: what sells goes on selling with a larger discount, so that one test
// halves the numbers that are left. At most 20 tests are made: that `left` does not pass 0 is proved. The loop counts no index, and a
// `while` says best when it ends.
pub fn smallest(book: Book, at: usize, most: CentsPerBlank) -> CentsPerBlank
    requires { Winnable book at most.0 }
    ensures { SmallestOff book at result.0 }
{
    let mut low: u64 = 0;
    let mut high = most.0;
    let mut left: u64 = 20;
    while low < high {
        left -= 1;
        let middle = low + (high - low) / 2;
        if sells(book, at, CentsPerBlank(middle)) {
            high = middle;
        } else {
            low = middle + 1;
        }
    }
    CentsPerBlank(low)
}
