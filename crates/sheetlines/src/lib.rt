// The lines of an award sheet, and the line of a refusal, as data: which parts each has.
#![tactic(auto)]

ghost use Rattle.std.specs.Prelude.{◌≡◌, ◌++◌};
ghost use Rattle.lists.specs.Joined.{joined};
ghost use Rattle.forms.specs.Bytes.{ascii};
ghost use Rattle.lines.specs.Line.{part_text};
ghost use Rattle.sheettext.specs.Sheet.{total_text, row_text, first_text, refusal_text};

use award::{Award, Row, Total};
use lines::Part;
use refusal::Verdict;
use words::Word;

#[tactic(auto, unfolding(sheettext::specs::Sheet::total_text))]
fn without_part(total: Total) -> Part
    ensures { part_text result ≡ ascii " (without " ++ total_text total }
{
    match total {
        Total::Amount(cents) => Part::Price(Word::Without, cents),
        Total::Nothing => Part::Fixed(Word::WithoutNone),
    }
}

// Bidder, segment, quantity, price, blanks to sample, and the total without the bidder.
pub fn row_line(row: &Row) -> [Part; 7]
    ensures { joined part_text result ≡ row_text row.now }
{
    let without = without_part(row.without);
    [
        Part::Number(Word::Buy, row.bidder),
        Part::Number(Word::Space, row.segment),
        Part::Number(Word::Space, row.quantity.0),
        Part::Price(Word::Space, row.price),
        Part::Number(Word::Space, row.sample.0),
        without,
        Part::Fixed(Word::CloseRow),
    ]
}

// Demand, what is bought, and total price.
#[tactic(auto, unfolding(sheettext::specs::Sheet::first_text))]
pub fn first_line(award: &Award) -> [Part; 4]
    ensures { joined part_text result ≡ first_text award.now }
{
    [
        Part::Number(Word::Award, award.demand.0),
        Part::Number(Word::Space, award.bought.0),
        Part::Price(Word::Space, award.total),
        Part::Fixed(Word::CloseLine),
    ]
}

// Number and place.
#[tactic(auto, unfolding(sheettext::specs::Sheet::refusal_text))]
pub fn refusal_line(verdict: Verdict) -> [Part; 3]
    ensures { joined part_text result ≡ refusal_text verdict }
{
    [
        Part::Number(Word::Refused, refusal::number(verdict)),
        Part::Number(Word::Space, refusal::place(verdict)),
        Part::Fixed(Word::CloseLine),
    ]
}
