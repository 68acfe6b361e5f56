// A bid book checked by rules 3 to 8 of document 01.
#![tactic(auto)]

ghost use Rattle.std.specs.Prelude.{◌≡◌, map};
ghost use Rattle.book.specs.Entries.{bid_entries, book_entries};
ghost use Rattle.book.specs.Rules.{order_in_range, bids_verdict, book_verdict};

use book::{Bid, Book, Order};
use money::Blanks;
use refusal::{Rule, Verdict};

// Rule 5, of an order.
#[tactic(auto, unfolding(book::specs::Rules::order_in_range))]
fn order_in_range(order: Order) -> bool
    ensures { result ≡ order_in_range order }
{
    (Blanks(1)..=Blanks(1_000_000)).contains(&order.demand) && order.allowance <= Blanks(1_000_000)
}

// The first fault of a bid by rules 4 to 8, with its line: the first bid stands on line 2. Why `tablerules` walks by itself is said there.
fn check_bids(bids: &[Bid]) -> Verdict
    ensures { result ≡ bids_verdict 2 0 (map bid_entries bids.now) }
{
    let mut before = 0;
    for (i, bid) in bids.iter().enumerate() {
        let line = i as u64 + 2;
        bidrules::check_bid(bid, line, before)?;
        before = bid.bidder;
    }
    Ok(())
}

// Accepts a record, or names its first fault with its line.
#[tactic(auto, unfolding(book::specs::Rules::book_verdict))]
pub fn check(book: Book) -> Verdict
    ensures { result ≡ book_verdict (book_entries book) }
{
    Rule::Range.unless(order_in_range(book.order), 1)?;
    Rule::BidCount.unless(0 < book.count, 2)?;
    check_bids(book.listed())?;
    Rule::BidCount.unless(book.count <= 8, 10)
}
