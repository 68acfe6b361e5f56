// The test whether a part of the search has nothing better than the best so far: a choice, with all ways to complete it. It is asked before
// the search goes on with a segment.
#![tactic(auto)]

ghost use Rattle.std.specs.Prelude.{◌≡◌, true, false, ◌⊎◌, ◌≤◌, ◌<◌};
ghost use Rattle.supply.specs.Meets.{most_of};
ghost use Rattle.charges.specs.Records.{Capped};
ghost use Rattle.hopeless.specs.Hopeless.{Above, least_bought, Closed, Comparable, Closable, Testable, NothingBetter};

use book::Order;
use charges::{Prices, Sums};
use comparison::PricedDivision;
use completions::Table;
use money::{Blanks, CentsPerBlank};

// What the parts of a search are judged by: the classes of ways to complete a choice, the order, how many bidders there are, and two
// prices of a blank.
#[derive(Clone, Copy)]
pub struct Bounds<'a> {
    pub table: &'a Table,
    pub order: Order,
    pub bidders: usize,
    pub prices: Prices,
    ghost few: { bidders ≤ 8 },
    ghost capped: { Capped prices },
}

// Whether no division has its starts and its ends add up so: the starts pass what the order takes, or the ends do not reach the
// demand. With a class, `high` is one above the ends. Starts up to the demand pass nothing: `passes` is not called for them, since this
// test runs most often.
fn apart(order: Order, low: Blanks, high: Blanks) -> bool
    ensures fact { result ≡ true → (most_of order < low.0) ⊎ (high.0 ≤ order.demand.0) }
    ensures demand_lt_high { result ≡ false → order.demand.0 < high.0 }
{
    (order.demand < low && supply::passes(order, low)) || high <= order.demand
}

// What is bought at least with these starts: the demand, or the starts where they pass it.
fn least_bought(order: Order, low: Blanks) -> Blanks
    ensures { result.0 ≡ least_bought order low.0 }
{
    order.demand.max(low)
}

impl Bounds<'_> {
    // Whether by a price of a blank the bidders with these charges, who sell so many blanks at least, cost more than so many cents; or as
    // many, where ties are lost.
    fn dear(
        &self,
        price: CentsPerBlank,
        least: Blanks,
        charged: u64,
        cents: u64,
        ties: bool,
    ) -> bool
        requires { Comparable price.0 least.0 charged cents }
        ensures { result ≡ true → Above least.0 self.now.bidders price.0 charged cents ties }
    {
        let limit = cents + charges::at_price(price, Blanks(1_000_000 * (self.bidders as u64)));
        let bound = charged + charges::at_price(price, least);
        limit < bound || (ties && limit == bound)
    }

    // Whether, with a class of ways to complete a choice that has these sums, nothing is better than the best so far.
    fn closed(&self, sums: Sums, class: Sums, ties: bool, best: Option<PricedDivision>) -> bool
        requires { Closable sums class }
        ensures { result ≡ true → Closed self.now.order self.now.bidders self.now.prices sums class ties best }
    {
        if class.high == Blanks(0) {
            return true;
        }
        let x = sums + class;
        let low = x.low;
        if apart(self.order, low, x.high) {
            return true;
        }
        let Some(best) = best else {
            return false;
        };
        let cents = money::magnitude(best.cost);
        let least = least_bought(self.order, low);
        self.dear(self.prices.first, least, x.charges.first, cents, ties)
            || self.dear(self.prices.second, least, x.charges.second, cents, ties)
    }

    // Whether the search can go on with a choice for the first `at` bidders only to leave the best so far as it is: with each class of
    // ways to complete it there is nothing better. `sums` are those of the choice. With `ties`, the best so far wins every
    // tie against the choice, and so is better than what only costs as much. A loop, since the closure of `all` could be called only with
    // classes of the table. It is pub for the search.
    pub fn hopeless(&self, at: usize, sums: Sums, ties: bool, best: Option<PricedDivision>) -> bool
        requires { Testable self.now.bidders at sums }
        ensures { result ≡ true → NothingBetter self.now.order self.now.bidders self.now.prices self.now.table.now.classes at sums ties best }
    {
        let count = completions::class_count(self.bidders - at);
        let first = 32 * at;
        let end = first + count;
        let classes = &self.table.classes[..];
        for class in &classes[first..end] {
            if !self.closed(sums, *class, ties, best) {
                return false;
            }
        }
        true
    }
}
