// The search for the best division of a book: through every choice of a segment for each bidder, but for
// the parts in which nothing better can be found.
#![tactic(auto)]

ghost use Rattle.std.specs.Prelude.{◌≡◌, true, drop};
ghost use Rattle.book.specs.Entries.{book_entries};
ghost use Rattle.supply.specs.Supply.{supplies_of};
ghost use Rattle.divisions.specs.Award.{award_of};
ghost use Rattle.choices.specs.Search.{leaf, search};
ghost use Rattle.choicerecord.specs.Records.{chosen};
ghost use Rattle.comparison.specs.Records.{found};
ghost use Rattle.hopeless.specs.Hopeless.{WinsTies, NothingBetter};
ghost use Rattle.search.specs.Searchable.{Searchable, Bounding, Testing, sums_of, Searching};

mod behind;
mod first;

use book::{Book, Order};
use charges::{Charges, Prices, Sums};
use choicerecord::Choice;
use comparison::PricedDivision;
use completions::Table;
use first::Beginning;
use hopeless::Bounds;
use money::Blanks;

// A complete choice: its division is compared with the best so far, if it has one.
fn leaf(order: Order, c: Choice, best: Option<PricedDivision>) -> Option<PricedDivision>
    ensures { found c.count result ≡ leaf order (chosen c) (found c.count best) }
{
    if !meritorder::fits(c, order) {
        return best;
    }
    let n = c.count;
    let new = meritorder::fill(c, order);
    Some(comparison::pick(best, new, n))
}

// Whether every division of a choice costs as much as the best so far at least, and loses each tie.
fn lost(bounds: &Bounds, c: Choice, sums: Sums, best: Option<PricedDivision>) -> bool
    requires { Testing bounds.now.order bounds.now.bidders bounds.now.prices c sums }
    ensures wins_ties { result ≡ true → (kept : PricedDivision) → best ≡ Some kept → WinsTies bounds.now.order (chosen c) kept }
    ensures nothing_better { result ≡ true → NothingBetter bounds.now.order bounds.now.bidders bounds.now.prices bounds.now.table.now.classes c.count sums true best }
{
    let Some(kept) = best else {
        return false;
    };
    if !behind::no_more_blanks(bounds.order, c, kept) {
        return false;
    }
    if !behind::behind(c, kept) {
        return false;
    }
    bounds.hopeless(c.count, sums, true, best)
}

// What a part of the search is judged by: the sums that its choice carries, and what the choice is charged.
fn sums_of(c: Choice, charges: Charges) -> Sums
    ensures { result ≡ sums_of c charges }
{
    Sums {
        low: c.starts,
        high: c.ends,
        charges,
    }
}

// A book that is searched, with the classes of its bidders and two prices of a blank to bound the search with. That the classes are those
// of the book's bidders is asked by `search` and no invariant: it names a class for each way to complete a choice, and an invariant is a
// fact without such data.
#[derive(Clone, Copy)]
struct Search<'a> {
    book: &'a Book,
    table: &'a Table,
    prices: Prices,
}

impl Search<'_> {
    // A segment is chosen for the next bidder, each in turn from its last to segment 0, and the search
    // calls itself for the bidders after it, unless nothing better can be found there; with a segment of
    // the last the choice is complete. It returns the best division so far. Segments by their numbers, since segment 0 is
    // not stored.
    fn search(
        &self,
        c: Choice,
        charged: Charges,
        best: Option<PricedDivision>,
    ) -> Option<PricedDivision>
        requires bounding { Bounding self.now.book.now self.now.prices self.now.table.now.classes }
        requires searching { Searching self.now.book.now self.now.prices c charged }
        ensures { found self.now.book.now.count result ≡ search self.now.book.now.order (drop c.count (supplies_of (book_entries self.now.book.now).bids)) (chosen c) (found self.now.book.now.count best) }
    {
        let bounds = Bounds {
            table: self.table,
            order: self.book.order,
            bidders: self.book.count,
            prices: self.prices,
        };
        let sums = sums_of(c, charged);
        if lost(&bounds, c, sums, best) {
            return best;
        }
        let left = bounds.bidders - c.count;
        let last = left == 1;
        let bid = self.book.bids[c.count];
        let count = bid.count + 1;
        let mut so_far = best;
        for j in (0..count).rev() {
            let s = supply::segment_of(bid, j);
            let more = sums + charges::charged(s, bounds.order, bounds.prices);
            if !bounds.hopeless(c.count + 1, more, false, so_far) {
                let next = c.choose(s);
                so_far = if last {
                    leaf(bounds.order, next, so_far)
                } else {
                    self.search(next, more.charges, so_far)
                };
            }
        }
        so_far
    }
}

// The award of a book's bids, if they have a division: the best of all divisions. Clearing asks for it
// with the bids of an accepted book, and with all but one of them.
pub fn best_division(book: Book) -> Option<PricedDivision>
    requires { Searchable (book_entries book) }
    ensures { found book.count result ≡ award_of book.order (supplies_of (book_entries book).bids) }
{
    let nothing = Choice::nothing_sold(0);
    if book.count == 0 {
        return leaf(book.order, nothing, None);
    }
    let Beginning { prices, best } = first::begin(&book);
    let none = Sums {
        low: Blanks(0),
        high: Blanks(0),
        charges: Charges {
            first: 0,
            second: 0,
        },
    };
    let mut table = Table {
        classes: [none; 288],
    };
    completions::survey(&mut table, book, prices);
    let search = Search {
        book: &book,
        table: &table,
        prices,
    };
    search.search(nothing, none.charges, best)
}
