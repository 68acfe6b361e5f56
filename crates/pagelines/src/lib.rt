// The lines of a page as data: which columns each has.
#![tactic(auto)]

ghost use Rattle.std.specs.Prelude.{◌≡◌};
ghost use Rattle.lists.specs.Joined.{joined};
ghost use Rattle.columns.specs.Shown.{shown_text};
ghost use Rattle.lines.specs.Line.{part_text};
ghost use Rattle.pagetext.specs.Page.{page_total, page_row, page_first};

use award::{Award, Row, Total};
use columns::Shown;
use lines::Part;
use words::Word;

#[tactic(auto, unfolding(pagetext::specs::Page::page_total))]
fn without_shown(total: Total) -> Shown
    ensures { shown_text result ≡ page_total total }
{
    match total {
        Total::Amount(cents) => Shown::InMoney(cents),
        Total::Nothing => Shown::InWord(Word::None),
    }
}

// Bidder, segment, quantity, price, blanks to sample, and the total without the bidder.
pub fn row_line(row: &Row) -> [Part; 7]
    ensures { joined part_text result ≡ page_row row.now }
{
    let without = without_shown(row.without);
    [
        Part::Column(6, Shown::InDigits(row.bidder)),
        Part::Column(4, Shown::InDigits(row.segment)),
        Part::Column(10, Shown::InDigits(row.quantity.0)),
        Part::Column(20, Shown::InMoney(row.price)),
        Part::Column(6, Shown::InDigits(row.sample.0)),
        Part::Column(18, without),
        Part::Fixed(Word::EndLine),
    ]
}

// Demand, what is bought, and total price.
#[tactic(auto, unfolding(pagetext::specs::Page::page_first))]
pub fn first_line(award: &Award) -> [Part; 4]
    ensures { joined part_text result ≡ page_first award.now }
{
    [
        Part::Column(20, Shown::InDigits(award.demand.0)),
        Part::Column(20, Shown::InDigits(award.bought.0)),
        Part::Column(24, Shown::InMoney(award.total)),
        Part::Fixed(Word::EndLine),
    ]
}
