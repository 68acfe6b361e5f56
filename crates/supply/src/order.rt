// Which numbers of blanks an order takes.
ghost use Rattle.std.specs.Prelude.{◌≡◌, ◌-◌, ◌^◌, min, leb, ltb};
ghost use Rattle.supply.specs.Meets.{most_of, meets};

use book::Order;
use money::Blanks;

// The most blanks that it takes, demand and allowance; the largest number where their sum does not fit.
fn most(order: Order) -> Blanks
    ensures { result.0 ≡ min (most_of order) (2 ^ 64 - 1) }
{
    Blanks(order.demand.0.saturating_add(order.allowance.0))
}

// Whether so many are more than the order takes.
pub fn passes(order: Order, blanks: Blanks) -> bool
    ensures { result ≡ ltb (most_of order) blanks.0 }
{
    most(order) < blanks
}

// Whether so many are at least the demand.
pub fn reaches(order: Order, blanks: Blanks) -> bool
    ensures { result ≡ leb order.demand.0 blanks.0 }
{
    order.demand <= blanks
}

// Whether it takes so many.
#[tactic(auto, unfolding(crate::specs::Meets::meets))]
pub fn meets(order: Order, blanks: Blanks) -> bool
    ensures { result ≡ meets order blanks.0 }
{
    reaches(order, blanks) && !passes(order, blanks)
}

// So many, or the most that it takes where that is less.
pub fn capped(order: Order, blanks: Blanks) -> Blanks
    ensures { result.0 ≡ min blanks.0 (most_of order) }
{
    blanks.min(most(order))
}
