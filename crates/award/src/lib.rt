// An award as a record: what each bidder sells, at what price, and what the mint samples.
#![tactic(auto)]

ghost use Rattle.std.specs.Prelude.{◌≡◌, take};
ghost use Rattle.book.specs.Entries.{bid_entries};
ghost use Rattle.book.specs.Accepted.{AcceptedBid};
ghost use Rattle.supply.specs.Supply.{supply_of, price_at};
ghost use Rattle.sampling.specs.Entries.{table_entries};
ghost use Rattle.award.specs.Award.{no_row, no_award, row_of};

use book::Bid;
use money::{Blanks, Cents};
use sampling::Table;

// A total without a bidder: an amount, or `none` where the bids left have no division. It is no Option<Cents>, since document 01 names
// its form: an enum Amount or Nothing is a field of the row.
#[derive(Clone, Copy, PartialEq, Eq)]
pub enum Total {
    Amount(Cents),
    Nothing,
}

// What a bidder sells: the number of its segment (0 for nothing), the quantity and its price, how many
// blanks are sampled, and the total that clearing would give if this bidder alone had not bid.
#[derive(Clone, Copy, PartialEq, Eq)]
pub struct Row {
    pub bidder: u64,
    pub segment: u64,
    pub quantity: Blanks,
    pub price: Cents,
    pub sample: Blanks,
    pub without: Total,
}

// `bought` is what all bidders sell. The first `count` rows are those of the bids, in book order; the others are zeros and `Nothing`. An
// array and a count, as in a book.
#[derive(Clone, Copy, PartialEq, Eq)]
pub struct Award {
    pub demand: Blanks,
    pub bought: Blanks,
    pub total: Cents,
    pub count: usize,
    pub rows: [Row; 8],
}

impl Award {
    // The rows that the record counts and holds.
    pub fn listed(&self) -> &[Row]
        ensures { result.now ≡ take self.now.count self.now.rows }
    {
        &self.rows[..self.count.min(8)]
    }
}

// Zeros and `Nothing`.
pub fn no_row() -> Row
    ensures { result ≡ no_row }
{
    Row {
        bidder: 0,
        segment: 0,
        quantity: Blanks(0),
        price: Cents(0),
        sample: Blanks(0),
        without: Total::Nothing,
    }
}

// What is given beside a refusal.
pub fn no_award() -> Award
    ensures { result ≡ no_award }
{
    Award {
        demand: Blanks(0),
        bought: Blanks(0),
        total: Cents(0),
        count: 0,
        rows: [no_row(); 8],
    }
}

// The price of a quantity that the bid offers; 0 where it does not offer it, which no award has.
#[tactic(auto, using(crate::proofs::Prices::price_or_zero))]
fn price_of(bid: Bid, quantity: Blanks) -> Cents
    requires { AcceptedBid (bid_entries bid) }
    ensures { result.0 ≡ price_at (supply_of (bid_entries bid)) quantity.0 }
{
    supply::price_at(bid, quantity).unwrap_or(Cents(0))
}

// The row of a bid of an accepted book, sampled by a table.
#[tactic(auto, unfolding(crate::specs::Award::row_of))]
pub fn row_of(table: Table, bid: Bid, quantity: Blanks, without: Total) -> Row
    requires { AcceptedBid (bid_entries bid) }
    ensures { result ≡ row_of (table_entries table) (bid_entries bid) quantity.0 without }
{
    Row {
        bidder: bid.bidder,
        segment: supply::segment_number(bid, quantity),
        quantity,
        price: price_of(bid, quantity),
        sample: sampling::sample_by_table(table, quantity),
        without,
    }
}
