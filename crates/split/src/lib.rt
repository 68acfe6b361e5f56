// The price of a proposed split: one quantity for each bid, in book order.
#![tactic(auto)]

ghost use Rattle.std.specs.Prelude.{◌≡◌};
ghost use Rattle.book.specs.Entries.{book_entries};
ghost use Rattle.split.specs.Split.{split_told, split_of};

use book::Book;
use money::{Blanks, Cents};
use refusal::{Refusal, Rule, Verdict};

// The price of a split, and whether its quantities add up to what the order takes; 0 and no beside a
// refusal.
// No Result: it is the answer of an entry, and by document 01 zeros stand beside a refusal.
#[derive(Clone, Copy)]
pub struct SplitPrice {
    pub verdict: Verdict,
    pub price: Cents,
    pub meets: bool,
}

// What the entries answer, from a record or a text.
impl From<Result<(Cents, bool), Refusal>> for SplitPrice {
    ghost from_gives = { λ priced split. split ≡ split_told priced };

    fn from(priced: Result<(Cents, bool), Refusal>) -> SplitPrice {
        match priced {
            Ok((price, meets)) => SplitPrice {
                verdict: Ok(()),
                price,
                meets,
            },
            Err(refusal) => SplitPrice {
                verdict: Err(refusal),
                price: Cents(0),
                meets: false,
            },
        }
    }
}

// Prices a split of any book by any list of quantities, whether or not the book can be covered.
pub fn price_split(book: Book, quantities: &[u64]) -> SplitPrice
    ensures { result ≡ split_of (book_entries book) quantities.now }
{
    priced(book, quantities).into()
}

// Rule 11 names the line of the first bid whose quantity is missing or not on offer, and for a list too long the line after the last bid.
fn priced(book: Book, quantities: &[u64]) -> Result<(Cents, bool), Refusal>
    ensures { split_told result ≡ split_of (book_entries book) quantities.now }
{
    bookrules::check(book)?;
    let mut price = Cents(0);
    let mut sum = Blanks(0);
    for (i, bid) in book.listed().iter().enumerate() {
        let refusal = Rule::SplitQuantity.at(2 + i as u64);
        let quantity = Blanks(*quantities.get(i).ok_or(refusal)?);
        price = price + supply::price_at(*bid, quantity).ok_or(refusal)?;
        sum = sum + quantity;
    }
    Rule::SplitQuantity.unless(quantities.len() <= book.count, 2 + book.count as u64)?;
    Ok((price, supply::meets(book.order, sum)))
}
