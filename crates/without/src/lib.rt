// What a bidder changes by its bid: the book less that bid, and the total that clearing would give for it.
#![tactic(auto)]

ghost use Rattle.std.specs.Prelude.{◌≡◌};
ghost use Rattle.book.specs.Entries.{book_entries};
ghost use Rattle.without.specs.Without.{book_without, total_without, OneOf, BidOf, BesideAward};

use award::Total;
use book::Book;
use comparison::PricedDivision;
use money::Blanks;

// The book less the bid with this index: the later bids move a place forward.
fn book_without(book: Book, at: usize) -> Book
    requires { OneOf book.count at }
    ensures { book_entries result ≡ book_without at (book_entries book) }
{
    let mut left = book;
    lists::copy(
        &mut left.bids[at..book.count - 1],
        &book.bids[at + 1..book.count],
    );
    left.count -= 1;
    left
}

// The total that clearing gives for the bids left: `Nothing` only where they have no division.
#[tactic(auto, using(crate::proofs::Found::total_amount, crate::proofs::Found::total_nothing, crate::proofs::Searchable::searchable_without, search::proofs::Found::searchable))]
fn total_without(book: Book, at: usize) -> Total
    requires { BidOf (book_entries book) at }
    ensures { result ≡ total_without (book_entries book) at }
{
    let left = book_without(book, at);
    match search::best_division(left) {
        Some(others) => Total::Amount(others.cost),
        None => Total::Nothing,
    }
}

// The total without a bidder, beside the award: where it sells nothing, that is the award's.
pub fn total_beside(book: Book, at: usize, award: PricedDivision) -> Total
    requires { BesideAward book at award }
    ensures { result ≡ total_without (book_entries book) at }
{
    let sells_nothing = award.quantities[at] == Blanks(0);
    if sells_nothing {
        return Total::Amount(award.cost);
    }
    total_without(book, at)
}
