// Rules 5 and 8, which look at each segment by itself.
ghost use Rattle.std.specs.Prelude.{◌≡◌, true};
ghost use Rattle.lists.specs.Every.{every};
ghost use Rattle.book.specs.Rules.{segment_in_range, start_not_negative};

use book::Segment;
use money::{Blanks, Cents, CentsPerBlank};

// Rule 5: every number is in its range.
#[tactic(auto, unfolding(book::specs::Rules::segment_in_range))]
fn segment_in_range(s: &Segment) -> bool
    ensures { result ≡ segment_in_range s.now }
{
    (Blanks(1)..=Blanks(1_000_000)).contains(&s.start)
        && (Blanks(1)..=Blanks(1_000_000)).contains(&s.end)
        && s.unit <= CentsPerBlank(1_000_000)
        && (Cents(-1_000_000_000_000)..=Cents(1_000_000_000_000)).contains(&s.fixed)
}

// Rule 8: the price at the start is not negative. Of a segment that keeps rule 5: there the price is
// known to fit 64 bits.
#[tactic(auto, unfolding(book::specs::Rules::start_not_negative))]
fn start_not_negative(s: &Segment) -> bool
    requires { segment_in_range s.now ≡ true }
    ensures { result ≡ start_not_negative s.now }
{
    let at_start = money::price(s.unit, s.start, s.fixed);
    Cents(0) <= at_start
}

// Rule 5, of each segment.
pub fn all_in_range(segments: &[Segment]) -> bool
    ensures { result ≡ every segment_in_range segments.now }
{
    segments.iter().all(segment_in_range)
}

// Rule 8, of each segment. Of segments that keep rule 5.
pub fn starts_not_negative(segments: &[Segment]) -> bool
    requires { every segment_in_range segments.now ≡ true }
    ensures { result ≡ every start_not_negative segments.now }
{
    segments.iter().all(start_not_negative)
}
