// Divisions as records, and compared as the award is fixed: by cost, among equal costs by blanks, and among as many by who gets
// more first.
#![tactic(auto)]

ghost use Rattle.std.specs.Prelude.{◌≡◌, ◌≤◌, Some};
ghost use Rattle.divisions.specs.Award.{gives_more, wins_tie, better, pick};
ghost use Rattle.comparison.specs.Records.{blanks_in, division_in, found};

use money::{Blanks, Cents};

// A division: its cost, how many blanks it buys, and a quantity for each bidder in book order. Nothing is allocated, so the
// quantities are an array, of which the first n count where there are n bidders.
#[derive(Clone, Copy)]
pub struct PricedDivision {
    pub cost: Cents,
    pub bought: Blanks,
    pub quantities: [Blanks; 8],
}

// Whether a gives more than b to the first bidder at whom the two differ. It is pub for the search's test of ties.
#[tactic(auto, using(crate::proofs::Comparing::more_by_order))]
pub fn gives_more(a: &[Blanks], b: &[Blanks]) -> bool
    ensures { result ≡ gives_more (blanks_in a.now) (blanks_in b.now) }
{
    a > b
}

// Of two that cost the same: whether a has fewer blanks than b; or as many, and gives more to the first of n bidders at
// whom the two differ.
#[tactic(auto, using(lists::proofs::Slices::map_take), unfolding(divisions::specs::Award::wins_tie))]
fn wins_tie(a: PricedDivision, b: PricedDivision, n: usize) -> bool
    requires { n ≤ 8 }
    ensures { result ≡ wins_tie (division_in n a) (division_in n b) }
{
    a.bought < b.bought
        || (a.bought == b.bought && gives_more(&a.quantities[..n], &b.quantities[..n]))
}

// Whether a costs less than b; or it costs no more, and wins the tie.
#[tactic(auto, unfolding(divisions::specs::Award::better))]
fn better(a: PricedDivision, b: PricedDivision, n: usize) -> bool
    requires { n ≤ 8 }
    ensures { result ≡ better (division_in n a) (division_in n b) }
{
    a.cost < b.cost || (a.cost <= b.cost && wins_tie(a, b, n))
}

// The better of the division kept so far, if there is one, and a new one.
#[tactic(auto, unfolding(divisions::specs::Award::pick))]
pub fn pick(kept: Option<PricedDivision>, new: PricedDivision, n: usize) -> PricedDivision
    requires { n ≤ 8 }
    ensures { found n (Some result) ≡ pick (found n kept) (division_in n new) }
{
    match kept {
        Some(kept) if !better(new, kept, n) => kept,
        _ => new,
    }
}
