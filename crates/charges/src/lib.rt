// What segments are charged by a price of a blank, and sums of it: by these the search bounds what a division costs. A charge is no
// price that anyone pays; it is a plain number, so that it cannot be taken for one.
#![tactic(auto)]

ghost use Rattle.std.specs.Prelude.{◌≡◌, ◌*◌, min};
ghost use Rattle.charges.specs.Charge.{charge_at, charge};
ghost use Rattle.charges.specs.Records.{Payable, ChargeableAt, Chargeable, ChargeableBy, Summable, Addable, charges_with, sums_on, sums_with};

use book::{Order, Segment};
use money::{Blanks, Cents, CentsPerBlank};
use std::ops::Add;

// Two prices of a blank. Any will do: they only make the search faster.
#[derive(Clone, Copy)]
pub struct Prices {
    pub first: CentsPerBlank,
    pub second: CentsPerBlank,
}

// What the segments of some bidders are charged in all, by the first price and by the second.
#[derive(Clone, Copy)]
pub struct Charges {
    pub first: u64,
    pub second: u64,
}

// Over some bidders: the sums of the starts and of the ends of their segments, and what these are charged.
#[derive(Clone, Copy)]
pub struct Sums {
    pub low: Blanks,
    pub high: Blanks,
    pub charges: Charges,
}

impl Add for Charges {
    type Output = Charges;

    ghost can_add = { Summable };

    ghost add_gives = { λ a b c. c ≡ charges_with a b };

    fn add(self, other: Charges) -> Charges {
        Charges {
            first: self.first + other.first,
            second: self.second + other.second,
        }
    }
}

impl Add for Sums {
    type Output = Sums;

    ghost can_add = { Addable };

    ghost add_gives = { λ a b c. c ≡ sums_with a b };

    fn add(self, other: Sums) -> Sums {
        Sums {
            low: self.low + other.low,
            high: self.high + other.high,
            charges: self.charges + other.charges,
        }
    }
}

// What so many blanks cost at a price, by the price rule, as a plain number. It is pub for the test whether a part of the search has
// nothing better.
pub fn at_price(price: CentsPerBlank, blanks: Blanks) -> u64
    requires { Payable price.0 blanks.0 }
    ensures { result ≡ price.0 * blanks.0 }
{
    money::magnitude(money::price(price, blanks, Cents(0)))
}

// What a quantity on a segment is charged.
fn charge_at(s: Segment, quantity: Blanks, price: CentsPerBlank) -> u64
    requires { ChargeableAt s quantity.0 price.0 }
    ensures { result ≡ charge_at price.0 s quantity.0 }
{
    let cents = money::magnitude(money::price(s.unit, quantity, s.fixed));
    let rest = at_price(price, Blanks(1_000_000) - quantity);
    cents + rest
}

// The charge of a segment up to `end`: that of its start or of `end`, whichever is less.
fn charge_to(s: Segment, end: Blanks, price: CentsPerBlank) -> u64
    requires { ChargeableAt s end.0 price.0 }
    ensures { result ≡ min (charge_at price.0 s s.start.0) (charge_at price.0 s end.0) }
{
    let at_start = charge_at(s, s.start, price);
    let at_end = charge_at(s, end, price);
    at_start.min(at_end)
}

// What a segment is charged up to its end, cut at demand plus allowance. It is pub for the hints.
pub fn charge(s: Segment, order: Order, price: CentsPerBlank) -> u64
    requires { Chargeable s price.0 }
    ensures { result ≡ charge order price.0 s }
{
    let end = supply::capped(order, s.end);
    charge_to(s, end, price)
}

// The sums of one segment. It is pub for the search and for what is worked out before it.
pub fn charged(s: Segment, order: Order, prices: Prices) -> Sums
    requires { ChargeableBy s prices }
    ensures { result ≡ sums_on order prices s }
{
    let end = supply::capped(order, s.end);
    let first = charge_to(s, end, prices.first);
    let second = charge_to(s, end, prices.second);
    Sums {
        low: s.start,
        high: s.end,
        charges: Charges { first, second },
    }
}
