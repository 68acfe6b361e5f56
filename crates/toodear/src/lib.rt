// How much too dear a bidder was: the smallest number of cents off its unit prices that leaves an accepted book and wins it a blank.
#![tactic(auto)]

ghost use Rattle.std.specs.Prelude.{◌≡◌};
ghost use Rattle.book.specs.Entries.{book_entries};
ghost use Rattle.toodear.specs.TooDear.{too_dear_told, too_dear_of};
ghost use Rattle.toodear.specs.Asked.{PlaceOf, NamedBid, AnswerFor};

mod discounts;

use book::{Bid, Book};
use money::{Blanks, CentsPerBlank};
use refusal::{Refusal, Rule, Verdict};

// The smallest discount that wins, so many cents off each unit price, or `None` where no discount wins a blank; `None` also beside a
// refusal.
// No Result: it is the answer of an entry, and by document 01 `None` stands beside a refusal.
#[derive(Clone, Copy)]
pub struct TooDear {
    pub verdict: Verdict,
    pub discount: Option<CentsPerBlank>,
}

// What the entries answer, from a record or a text.
impl From<Result<Option<CentsPerBlank>, Refusal>> for TooDear {
    ghost from_gives = { λ discount answer. answer ≡ too_dear_told discount };

    fn from(discount: Result<Option<CentsPerBlank>, Refusal>) -> TooDear {
        match discount {
            Ok(discount) => TooDear {
                verdict: Ok(()),
                discount,
            },
            Err(refusal) => TooDear {
                verdict: Err(refusal),
                discount: None,
            },
        }
    }
}

// The index of the bidder's bid, if it has one here.
fn find(bids: &[Bid], bidder: u64) -> Option<usize>
    ensures { PlaceOf bidder bids.now result }
{
    bids.iter().position(|bid| bid.bidder == bidder)
}

// The largest discount that leaves an accepted book sells the most: where it sells nothing, none does, and where there is no award
// with it, there is none without it. Else the smallest that sells is found by halving.
fn for_bid(book: Book, at: usize) -> Result<Option<CentsPerBlank>, Refusal>
    requires { NamedBid book at }
    ensures { AnswerFor book at result }
{
    let most = discount::largest(book.bids[at]);
    let best = discounts::best_off(book, at, most).ok_or(Rule::NotCovered.at(0))?;
    let sells_nothing = best.quantities[at] == Blanks(0);
    if sells_nothing {
        return Ok(None);
    }
    Ok(Some(discounts::smallest(book, at, most)))
}

// Refused by rules 3 to 8 as `bookrules::check` refuses the record, then by 13 where the bidder is not in the book, then by 9.
fn smallest_discount(book: Book, bidder: u64) -> Result<Option<CentsPerBlank>, Refusal>
    ensures { too_dear_told result ≡ too_dear_of (book_entries book) bidder }
{
    bookrules::check(book)?;
    let at = find(book.listed(), bidder).ok_or(Rule::UnknownBidder.at(0))?;
    for_bid(book, at)
}

// How much too dear a bidder was, of any record and any number.
pub fn too_dear(book: Book, bidder: u64) -> TooDear
    ensures { result ≡ too_dear_of (book_entries book) bidder }
{
    smallest_discount(book, bidder).into()
}
