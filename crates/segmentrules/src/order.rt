// Rule 7: within a bid each start is at most its end, and above the end before it.
ghost use Rattle.std.specs.Prelude.{◌≡◌};
ghost use Rattle.book.specs.Rules.{segments_rise};

use book::Segment;
use money::Blanks;

// The segments as the bid lists them. Before the first one 0 stands, as in the definition that the contract names.
pub fn segments_rise(segments: &[Segment]) -> bool
    ensures { result ≡ segments_rise 0 segments.now }
{
    let mut before = Blanks(0);
    for s in segments {
        if s.start <= before {
            return false;
        }
        if s.end < s.start {
            return false;
        }
        before = s.end;
    }
    true
}
