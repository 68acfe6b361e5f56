// The second clearing: all splits of a small book are listed, and of the cheapest the one with fewest blanks is kept, the first of these.
use crate::small_books;
use crate::small_books::{SmallBid, SmallBook, SmallSegment};

// The quantity of each bidder, from 0 to 8.
pub type Split = [u8; 3];

// The cheapest split and its price, and whether another one costs the same.
#[derive(Clone, Copy)]
pub struct Cheapest {
    pub total: i64,
    pub split: Split,
    pub tie: bool,
}

// The number of the segment on which a quantity lies, 0 for none, and its price.
#[derive(Clone, Copy)]
pub struct Offer {
    pub segment: u64,
    pub price: i64,
}

// What all bidders sell.
pub fn bought(split: Split) -> u16 {
    let [first, second, third] = split;
    u16::from(first) + u16::from(second) + u16::from(third)
}

pub fn asked(bid: &SmallBid, quantity: u8) -> Option<Offer> {
    if quantity == 0 {
        return Some(Offer {
            segment: 0,
            price: 0,
        });
    }
    let segments = bid.listed();
    let at = segments
        .iter()
        .position(|s| (s.start..=s.end).contains(&quantity))?;
    Some(Offer {
        segment: at as u64 + 1,
        price: price_on(&segments[at], bid.carriage, quantity),
    })
}

fn price_on(segment: &SmallSegment, carriage: u8, quantity: u8) -> i64 {
    let goods = small_books::cost(segment.unit, quantity);
    let carried = small_books::cost(carriage, quantity);
    i64::from(goods) + i64::from(carried) + i64::from(segment.fixed)
}

// The price of a quantity of the bidder with this index. One who is struck or past the count has only quantity 0.
fn price(book: &SmallBook, struck: Option<usize>, i: usize, quantity: u8) -> Option<i64> {
    if quantity == 0 {
        return Some(0);
    }
    if struck == Some(i) {
        return None;
    }
    let bid = book.listed().get(i)?;
    asked(bid, quantity).map(|offer| offer.price)
}

// Whether a book's order takes so many blanks.
fn takes(book: &SmallBook, blanks: u16) -> bool {
    let demand = u16::from(book.demand);
    (demand..=demand + u16::from(book.allowance)).contains(&blanks)
}

// What a split costs, if it is offered and the order takes it.
fn cost(book: &SmallBook, struck: Option<usize>, split: Split) -> Option<i64> {
    if !takes(book, bought(split)) {
        return None;
    }
    let mut total = 0i64;
    for (i, quantity) in split.iter().enumerate() {
        total = total.checked_add(price(book, struck, i, *quantity)?)?;
    }
    Some(total)
}

// The best so far, and a split that is listed later: at the same cost it is better only if it has fewer blanks.
fn better(best: Option<Cheapest>, split: Split, total: i64) -> Cheapest {
    match best {
        Some(best) if best.total < total => best,
        Some(best) if best.total == total => Cheapest {
            total,
            split: if bought(split) < bought(best.split) {
                split
            } else {
                best.split
            },
            tie: true,
        },
        _ => Cheapest {
            total,
            split,
            tie: false,
        },
    }
}

// The splits in the order that decides between those with as many blanks at the same cost, from the last to the first:
// the quantities are digits to the base 9, and the one that gives the first bidder most is the highest number.
fn split(number: u16) -> Split {
    [
        (number / 81 % 9) as u8,
        (number / 9 % 9) as u8,
        (number % 9) as u8,
    ]
}

// The cheapest split without the bidder who is struck, if the order takes one that is offered.
pub fn clear(book: &SmallBook, struck: Option<usize>) -> Option<Cheapest> {
    let mut best = None;
    for number in (0..729).rev() {
        let split = split(number);
        if let Some(total) = cost(book, struck, split) {
            best = Some(better(best, split, total));
        }
    }
    best
}
