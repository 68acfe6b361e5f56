// What turns a text, a record, a split or an output down, and what is said of it.
#![tactic(auto)]

ghost use Rattle.std.specs.Prelude.{◌≡◌};
ghost use Rattle.refusal.specs.Checks.{unless};
ghost use Rattle.refusal.specs.Number.{rule_number, number_of, place_of};

// A rule of document 01, section "What is turned down", or of document 02, in the order of its numbers from 1.
#[derive(Clone, Copy, PartialEq, Eq)]
pub enum Rule {
    TextLength,
    Shape,
    BidCount,
    SegmentCount,
    Range,
    BidderOrder,
    SegmentOrder,
    NegativePrice,
    NotCovered,
    OutputLength,
    SplitQuantity,
    SamplingTable,
    UnknownBidder,
}

// A rule that was broken, at a place (a line, a place in the text or a length).
#[derive(Clone, Copy, PartialEq, Eq)]
pub struct Refusal {
    pub rule: Rule,
    pub place: u64,
}

// Accepted, or refused.
pub type Verdict = Result<(), Refusal>;

impl Rule {
    // The number under which a refusal by the rule is shown.
    fn number(self) -> u64
        ensures { result ≡ rule_number self }
    {
        match self {
            Rule::TextLength => 1,
            Rule::Shape => 2,
            Rule::BidCount => 3,
            Rule::SegmentCount => 4,
            Rule::Range => 5,
            Rule::BidderOrder => 6,
            Rule::SegmentOrder => 7,
            Rule::NegativePrice => 8,
            Rule::NotCovered => 9,
            Rule::OutputLength => 10,
            Rule::SplitQuantity => 11,
            Rule::SamplingTable => 12,
            Rule::UnknownBidder => 13,
        }
    }

    // The refusal by the rule at a place.
    pub fn at(self, place: u64) -> Refusal
        ensures { result ≡ record { rule = self; place = place } }
    {
        Refusal { rule: self, place }
    }

    // Refused by the rule at a place, unless the test holds.
    pub fn unless(self, holds: bool, place: u64) -> Verdict
        ensures { result ≡ unless holds self place }
    {
        if !holds {
            return Err(self.at(place));
        }
        Ok(())
    }
}

// The number under which a verdict is shown; 0 where nothing is refused.
pub fn number(verdict: Verdict) -> u64
    ensures { result ≡ number_of verdict }
{
    match verdict {
        Ok(()) => 0,
        Err(refusal) => refusal.rule.number(),
    }
}

// The place of a refusal; 0 where nothing is refused.
pub fn place(verdict: Verdict) -> u64
    ensures { result ≡ place_of verdict }
{
    match verdict {
        Ok(()) => 0,
        Err(refusal) => refusal.place,
    }
}
