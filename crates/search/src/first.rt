// A division to start the search from. The numbers that it is made with are a hint: any numbers serve.
ghost use Rattle.std.specs.Prelude.{None};
ghost use Rattle.book.specs.Entries.{bid_entries, book_entries};
ghost use Rattle.supply.specs.Supply.{supply_of, supplies_of};
ghost use Rattle.choices.specs.Leaf.{Started};
ghost use Rattle.comparison.specs.Records.{found};
ghost use Rattle.charges.specs.Records.{Capped};
ghost use Rattle.search.specs.ChosenFrom.{ChosenFrom, HasBidder, ExchangedFrom};
ghost use Rattle.search.specs.Searchable.{Searchable, StartedWith, ImprovableAt};

use book::{Bid, Book};
use charges::Prices;
use choicerecord::Choice;
use comparison::PricedDivision;

// Prices of a blank to bound the search with, and a division to improve on, if one was found.
#[derive(Clone, Copy)]
pub struct Beginning {
    pub prices: Prices,
    pub best: Option<PricedDivision>,
}

// The choice with another segment for bidder i: the one with this number in the bid, or the bid's last.
fn with_number(c: Choice, i: usize, bid: Bid, number: usize) -> Choice
    requires { HasBidder c i bid }
    ensures { ExchangedFrom (supply_of (bid_entries bid)) c i result }
{
    let s = supply::segment_of(bid, number.min(bid.count));
    c.exchange(i, s)
}

// The choice of the segments with these numbers.
fn choice_of(book: Book, numbers: [usize; 8]) -> Choice
    requires { Searchable (book_entries book) }
    ensures { ChosenFrom (supplies_of (book_entries book).bids) result }
{
    let mut c = Choice::nothing_sold(book.count);
    for i in 0..book.count {
        let bid = book.bids[i];
        c = with_number(c, i, bid, numbers[i]);
    }
    c
}

// The best of a division, if there is one, and of the choices that differ from a choice in the segment of the bidder with index `at`:
// each by its number, since segment 0 is not stored.
fn first_at(
    book: &Book,
    c: Choice,
    at: usize,
    best: Option<PricedDivision>,
) -> Option<PricedDivision>
    requires { ImprovableAt book.now c at best }
    ensures { Started book.now.order (supplies_of (book_entries book.now).bids) (found book.now.count result) }
{
    let bid = book.bids[at];
    let mut so_far = best;
    for number in 0..=bid.count {
        let other = with_number(c, at, bid, number);
        so_far = crate::leaf(book.order, other, so_far);
    }
    so_far
}

// The best of a division, if there is one, and of the choices that differ in one bidder's segment from
// the choice of the favoured segments.
fn first(book: &Book, numbers: [usize; 8], best: Option<PricedDivision>) -> Option<PricedDivision>
    requires { StartedWith book.now best }
    ensures { Started book.now.order (supplies_of (book_entries book.now).bids) (found book.now.count result) }
{
    let c = choice_of(*book, numbers);
    let mut so_far = best;
    for at in 0..book.count {
        so_far = first_at(book, c, at, so_far);
    }
    so_far
}

// What the search begins with: the price at which the bidders would sell what is asked for, a division
// near what they would sell at it, and a second price, by which a better division may be found. It is
// pub for `best_division`.
pub fn begin(book: &Book) -> Beginning
    requires { Searchable (book_entries book.now) }
    ensures capped { Capped result.prices }
    ensures started { Started book.now.order (supplies_of (book_entries book.now).bids) (found book.now.count result.best) }
{
    let price = hints::balance(*book);
    let numbers = hints::favourites(*book, price);
    let one = first(book, numbers, None);
    let other = hints::second_price(*book, one, price);
    let others = hints::favourites(*book, other);
    let best = first(book, others, one);
    let second = hints::second_price(*book, best, price);
    Beginning {
        prices: Prices {
            first: price,
            second,
        },
        best,
    }
}
