// Small books made by a fixed rule: demands from 1 to 8, allowances from 0 to 3 as far as both together are at most 8, one to
// three bids of one to three segments, with carriages from 0 to 3.
// The rule takes several small numbers from each number of a row by division and remainder.
ghost use Rattle.std.specs.Prelude.{◌+◌, ◌*◌, ◌≤◌, max, length};

use book::{Bid, Book, Order, Segment};
use money::{Blanks, Cents, CentsPerBlank};
use std::array;

#[derive(Clone, Copy)]
pub struct SmallSegment {
    pub start: u8,
    pub end: u8,
    pub unit: u8,
    pub fixed: i16,
}

// The first `count` of three segments.
#[derive(Clone, Copy)]
pub struct SmallBid {
    pub bidder: u8,
    pub carriage: u8,
    pub count: usize,
    pub segments: [SmallSegment; 3],
}

// The first `count` of three bids.
#[derive(Clone, Copy)]
pub struct SmallBook {
    pub demand: u8,
    pub allowance: u8,
    pub count: usize,
    pub bids: [SmallBid; 3],
}

impl SmallBid {
    pub fn listed(&self) -> &[SmallSegment]
        ensures { length result.now ≤ 3 }
    {
        &self.segments[..self.count.min(3)]
    }
}

impl SmallBook {
    pub fn listed(&self) -> &[SmallBid]
        ensures { length result.now ≤ 3 }
    {
        &self.bids[..self.count.min(3)]
    }
}

// The numbers from one on, in the order of Lehmer's generator.
#[derive(Drop)]
pub struct Numbers {
    at: u64,
}

impl Numbers {
    pub fn new() -> Numbers {
        Numbers { at: 1 }
    }

    fn next(&mut self) -> u64 {
        let number = self.at;
        self.at = number % 2_147_483_647 * 48_271 % 2_147_483_647;
        number
    }
}

// A book takes as many numbers as four bids.
pub fn book(numbers: &mut Numbers) -> SmallBook {
    let x = numbers.next();
    for _ in 0..3 {
        numbers.next();
    }
    let demand = 1 + (x % 8) as u8;
    let over = (x / 32 % 4) as u8;
    SmallBook {
        demand,
        // None where both together would be above 8: no quantity of a split that is listed is.
        allowance: if demand + over <= 8 { over } else { 0 },
        count: bids(x / 8 % 4),
        bids: [bid(2, numbers), bid(5, numbers), bid(7, numbers)],
    }
}

// Three more often than one or two: most splits are theirs.
fn bids(x: u64) -> usize {
    match x {
        0 => 1,
        1 => 2,
        _ => 3,
    }
}

// A bid takes four numbers.
fn bid(bidder: u8, numbers: &mut Numbers) -> SmallBid {
    let first = segment(numbers.next(), 0);
    let second = segment(numbers.next(), first.end);
    let third = segment(numbers.next(), second.end);
    let x = numbers.next();
    SmallBid {
        bidder,
        carriage: (x / 3 % 4) as u8,
        count: 1 + (x % 3) as usize,
        segments: [first, second, third],
    }
}

// A segment of one to four blanks, the first or the second above the end before it, with a unit price from 0 to 3. The fixed
// price is what some blanks up to the start cost, taken off, and 0 to 2 more: so it is often negative, prices are often
// equal, and the price at the start is at least 0.
fn segment(x: u64, before: u8) -> SmallSegment
    requires { before ≤ 10 }
    ensures { result.end ≤ before + 5 }
{
    let start = before + 1 + (x % 2) as u8;
    let unit = (x / 8 % 4) as u8;
    let off = cost(unit, some(x / 32 % 3, start));
    SmallSegment {
        start,
        end: start + (x / 2 % 4) as u8,
        unit,
        fixed: (x / 96 % 3) as i16 - off as i16,
    }
}

// All, one or none of the blanks up to a start.
fn some(x: u64, start: u8) -> u8
    ensures { result ≤ max start 1 }
{
    match x {
        0 => start,
        1 => 1,
        _ => 0,
    }
}

// What blanks cost at a unit price or a carriage from 0 to 3, as a sum: only the price rule multiplies.
pub fn cost(unit: u8, blanks: u8) -> u16
    ensures { result ≤ 3 * blanks }
{
    let blanks = u16::from(blanks);
    match unit {
        0 => 0,
        1 => blanks,
        2 => blanks + blanks,
        _ => blanks + blanks + blanks,
    }
}

// The book as a record. What stands past a count looks like what stands before it, so that a clearing which looks at it goes wrong.
impl From<SmallBook> for Book {
    fn from(book: SmallBook) -> Book {
        Book {
            order: Order {
                demand: Blanks(u64::from(book.demand)),
                allowance: Blanks(u64::from(book.allowance)),
            },
            count: book.count,
            bids: array::from_fn(|i| Bid::from(book.bids[i % 3])),
        }
    }
}

impl From<SmallBid> for Bid {
    fn from(bid: SmallBid) -> Bid {
        Bid {
            bidder: u64::from(bid.bidder),
            carriage: CentsPerBlank(u64::from(bid.carriage)),
            count: bid.count,
            segments: array::from_fn(|i| Segment::from(bid.segments[i % 3])),
        }
    }
}

impl From<SmallSegment> for Segment {
    fn from(segment: SmallSegment) -> Segment {
        Segment {
            start: Blanks(u64::from(segment.start)),
            end: Blanks(u64::from(segment.end)),
            unit: CentsPerBlank(u64::from(segment.unit)),
            fixed: Cents(i64::from(segment.fixed)),
        }
    }
}
