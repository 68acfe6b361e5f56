// Whether a division wins every tie against a choice.
ghost use Rattle.std.specs.Prelude.{◌≡◌, max, leb, take};
ghost use Rattle.divisions.specs.Award.{gives_more};
ghost use Rattle.choices.specs.Choice.{starts, ends_in_order};
ghost use Rattle.choicerecord.specs.Records.{chosen};
ghost use Rattle.comparison.specs.Records.{blanks_in};

use book::Order;
use choicerecord::Choice;
use comparison::PricedDivision;
use money::Blanks;

// The ends of the chosen segments, in book order.
fn ends(c: Choice) -> [Blanks; 8]
    ensures { take c.count (blanks_in result) ≡ ends_in_order (chosen c) }
{
    let mut all = [Blanks(0); 8];
    for i in 0..c.count {
        let s = c.segments[i];
        all[i] = s.end;
    }
    all
}

// Whether a division has no more blanks than any division of a choice: each of these gives the starts, and meets the
// demand. It is pub, as `behind` is, for the search's test of ties.
pub fn no_more_blanks(order: Order, c: Choice, best: PricedDivision) -> bool
    ensures { result ≡ leb best.bought.0 (max order.demand.0 (starts (chosen c))) }
{
    best.bought <= order.demand || best.bought <= c.starts
}

// Whether a division gives more than the ends of a choice to the first of its bidders at whom they
// differ: then it gives more than every division of the choice.
pub fn behind(c: Choice, best: PricedDivision) -> bool
    ensures { result ≡ gives_more (take c.count (blanks_in best.quantities)) (ends_in_order (chosen c)) }
{
    let n = c.count;
    let high = ends(c);
    comparison::gives_more(&best.quantities[..n], &high[..n])
}
