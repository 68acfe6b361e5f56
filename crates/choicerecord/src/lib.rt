// A choice of a segment for each bidder, as a record. The sums of the starts and of the ends are carried along as a segment is chosen or
// dropped, and nothing adds them up afresh.
#![tactic(auto)]

ghost use Rattle.choicerecord.specs.Sound.{SoundChoice};

use book::Segment;
use money::Blanks;

// A segment chosen for each of the first `count` bidders, in book order, and the sums of their starts and of their ends; the other
// segments are ignored. Nothing is allocated, so the choice is an array and a count.
#[derive(Clone, Copy)]
pub struct Choice {
    pub count: usize,
    pub segments: [Segment; 8],
    pub starts: Blanks,
    pub ends: Blanks,
    pub ghost sound: { SoundChoice count segments starts.0 ends.0 },
}

impl Choice {
    ghost use Rattle.std.specs.Prelude.{◌≡◌, ◌∷◌, ◌+◌, ◌≤◌};
    ghost use Rattle.choicerecord.specs.Records.{chosen, SellsNothing, Choosable, Exchangeable, Exchanged};

    // Segment 0 for each of n bidders. It is pub, as `choose` and `exchange` are, for the search.
    pub fn nothing_sold(n: usize) -> Choice
        requires { n ≤ 8 }
        ensures count_value { result.count ≡ n }
        ensures sells_nothing { SellsNothing result }
    {
        Choice {
            count: n,
            segments: [supply::segment_0(); 8],
            starts: Blanks(0),
            ends: Blanks(0),
        }
    }

    // The choice with a segment for the next bidder.
    #[tactic(auto, using(crate::proofs::Choosing::chosen_more))]
    pub fn choose(self, s: Segment) -> Choice
        requires { Choosable self s }
        ensures count_value { result.count ≡ self.count + 1 }
        ensures result_value { chosen result ≡ s ∷ chosen self }
    {
        let mut segments = self.segments;
        segments[self.count] = s;
        let starts = self.starts + s.start;
        let ends = self.ends + s.end;
        Choice {
            count: self.count + 1,
            segments,
            starts,
            ends,
        }
    }

    // The choice with another segment for bidder i: the one that it had is dropped, and its start and its end are taken back from the sums.
    #[tactic(auto, using(crate::proofs::Choosing::start_within, crate::proofs::Choosing::end_within))]
    pub fn exchange(self, i: usize, s: Segment) -> Choice
        requires { Exchangeable self i s }
        ensures count_value { result.count ≡ self.count }
        ensures exchanged { Exchanged self i s result }
    {
        let dropped = self.segments[i];
        let mut segments = self.segments;
        segments[i] = s;
        let starts = self.starts - dropped.start + s.start;
        let ends = self.ends - dropped.end + s.end;
        Choice {
            count: self.count,
            segments,
            starts,
            ends,
        }
    }
}
