// Whether clearing gives what the second clearing gives: verdict, demand, what is bought, total, and all six columns of every row;
// and zeros and `Nothing` in the rows past the bids, which are all rows beside a refusal.
use crate::small_books::SmallBook;
use crate::splits;
use crate::splits::{Cheapest, Split};
use award::{Award, Row, Total};
use clearing::Clearing;
use money::{Blanks, Cents};
use refusal::Rule;
use std::array;

const NO_ROW: Row = Row {
    bidder: 0,
    segment: 0,
    quantity: Blanks(0),
    price: Cents(0),
    sample: Blanks(0),
    without: Total::Nothing,
};

const NO_AWARD: Award = Award {
    demand: Blanks(0),
    bought: Blanks(0),
    total: Cents(0),
    count: 0,
    rows: [NO_ROW; 8],
};

pub fn agrees(book: &SmallBook, best: Option<Cheapest>, cleared: Clearing) -> bool {
    match best {
        Some(best) => cleared.verdict == Ok(()) && cleared.award == award_of(book, best),
        None => cleared.verdict == Err(Rule::NotCovered.at(0)) && cleared.award == NO_AWARD,
    }
}

fn award_of(book: &SmallBook, best: Cheapest) -> Award {
    Award {
        demand: Blanks(u64::from(book.demand)),
        bought: Blanks(u64::from(splits::bought(best.split))),
        total: Cents(best.total),
        count: book.count,
        rows: array::from_fn(|i| row_of(book, best.split, i).unwrap_or(NO_ROW)),
    }
}

// The row of the bid with this index.
fn row_of(book: &SmallBook, split: Split, i: usize) -> Option<Row> {
    let bid = book.listed().get(i)?;
    let quantity = *split.get(i)?;
    let offer = splits::asked(bid, quantity)?;
    let without = splits::clear(book, Some(i));
    Some(Row {
        bidder: u64::from(bid.bidder),
        segment: offer.segment,
        quantity: Blanks(u64::from(quantity)),
        price: Cents(offer.price),
        sample: Blanks(sample(quantity)),
        without: without.map_or(Total::Nothing, |best| Total::Amount(Cents(best.total))),
    })
}

// The printed table as far as 8.
fn sample(quantity: u8) -> u64 {
    match quantity {
        0 => 0,
        1 => 1,
        _ => 2,
    }
}
