// A choice of a segment for each bidder: whether it fits the order, and the cheapest quantities within it.
#![tactic(auto)]

ghost use Rattle.std.specs.Prelude.{◌≡◌, ◌^◌, ◌<◌, leb};
ghost use Rattle.choices.specs.Choice.{fits, width, extra, filled};
ghost use Rattle.choicerecord.specs.Records.{segment_at, first_segments, chosen};
ghost use Rattle.comparison.specs.Records.{division_in};
ghost use Rattle.meritorder.specs.Widths.{widths};

use book::{Order, Segment};
use choicerecord::Choice;
use comparison::PricedDivision;
use money::{Blanks, Cents, CentsPerBlank};

// The starts add up to no more than the order takes, and the ends to at least the demand, by the sums that the choice
// carries; prices do not matter.
#[tactic(auto, unfolding(choices::specs::Choice::fits))]
pub fn fits(c: Choice, order: Order) -> bool
    ensures { result ≡ fits order (chosen c) }
{
    !supply::passes(order, c.starts) && supply::reaches(order, c.ends)
}

// Whether a further blank costs no more on s than `unit`. Its unit price decides, and not what its
// blanks cost on average.
fn no_dearer(s: Segment, unit: CentsPerBlank) -> bool
    ensures { result ≡ leb s.unit.0 unit.0 }
{
    s.unit <= unit
}

// How much a segment can take over its start.
#[tactic(auto, unfolding(choices::specs::Choice::width))]
fn width(s: Segment) -> u64
    ensures { result ≡ width s }
{
    s.end.0.saturating_sub(s.start.0)
}

// What segments can take over their starts, of those that are no dearer than `unit`.
fn cheaper(segments: &[Segment], unit: CentsPerBlank) -> Blanks
    requires { widths unit.0 segments.now < 2 ^ 64 }
    ensures { result.0 ≡ widths unit.0 segments.now }
{
    let widths = segments
        .iter()
        .filter(|s| no_dearer(**s, unit))
        .map(|s| width(*s));
    Blanks(widths.sum())
}

// What bidder i gets over its start, where there is so much left for it and those before it: what
// those of them who are no dearer cannot take.
#[tactic(auto, using(crate::proofs::Sums::widths_cheaper, crate::proofs::Sums::cheaper_small), unfolding(choices::specs::Choice::width))]
fn extra(c: Choice, i: usize, left: Blanks) -> Blanks
    requires { i < c.count }
    ensures { result.0 ≡ extra left.0 (segment_at c i) (first_segments c i) }
{
    let s = c.segments[i];
    let earlier = cheaper(&c.segments[..i], s.unit);
    Blanks(width(s).min(left.0.saturating_sub(earlier.0)))
}

// Quantities within a choice, as many as the demand, or as the starts where these pass it: from the last
// bidder to the first, each gets its start and its extra of what is left. Where the choice fits they are the best.
// By the index, since the extra looks at the bidders before.
pub fn fill(c: Choice, order: Order) -> PricedDivision
    ensures { division_in c.count result ≡ filled order (chosen c) }
{
    let mut left = Blanks(order.demand.0.saturating_sub(c.starts.0));
    let bought = c.starts + left;
    let mut quantities = [Blanks(0); 8];
    let mut cost = Cents(0);
    for i in (0..c.count).rev() {
        let s = c.segments[i];
        let x = extra(c, i, left);
        left = left - x;
        let quantity = s.start + x;
        quantities[i] = quantity;
        let price = money::price(s.unit, quantity, s.fixed);
        cost = cost + price;
    }
    PricedDivision {
        cost,
        bought,
        quantities,
    }
}
