// What is known of a book before it is cleared (document 02, change 6).
#![tactic(auto)]

ghost use Rattle.std.specs.Prelude.{◌≡◌, ◌≤◌};
ghost use Rattle.refusal.specs.Verdict.{Accepted};
ghost use Rattle.book.specs.Entries.{book_entries};
ghost use Rattle.book.specs.Rules.{book_verdict};
ghost use Rattle.sizes.specs.Sizes.{choices_of, sheet_limit, sizes_told, sizes_of};

use book::Book;
use refusal::{Refusal, Verdict};

// How many bytes the book's text has, how many choices of a segment for each bidder there are, and how many bytes its sheet
// has at most; zeros beside a refusal.
// No Result: it is the answer of an entry, and by document 01 zeros stand beside a refusal.
#[derive(Clone, Copy)]
pub struct BookSizes {
    pub verdict: Verdict,
    pub bytes: u64,
    pub choices: u64,
    pub sheet: u64,
}

// The three figures of an accepted book.
#[derive(Clone, Copy)]
pub struct Figures {
    pub bytes: u64,
    pub choices: u64,
    pub sheet: u64,
}

// What the entries answer, from a record or a text.
impl From<Result<Figures, Refusal>> for BookSizes {
    ghost from_gives = { λ figures sizes. sizes ≡ sizes_told figures };

    fn from(figures: Result<Figures, Refusal>) -> BookSizes {
        match figures {
            Ok(figures) => BookSizes {
                verdict: Ok(()),
                bytes: figures.bytes,
                choices: figures.choices,
                sheet: figures.sheet,
            },
            Err(refusal) => BookSizes {
                verdict: Err(refusal),
                bytes: 0,
                choices: 0,
                sheet: 0,
            },
        }
    }
}

// The figures of any record, whether or not its demand can be covered.
pub fn sizes(book: Book) -> BookSizes
    ensures { result ≡ sizes_of (book_entries book) }
{
    figures_of(book).into()
}

#[tactic(auto, using(crate::proofs::Answers::sizes_accepted), unfolding(crate::specs::Sizes::sizes_of))]
fn figures_of(book: Book) -> Result<Figures, Refusal>
    ensures { sizes_told result ≡ sizes_of (book_entries book) }
{
    bookrules::check(book)?;
    Ok(Figures {
        bytes: bookwriter::measure(book) as u64,
        choices: choices(book),
        sheet: sheet_limit(book.count),
    })
}

// How many choices of a segment for each bidder an accepted book has.
fn choices(book: Book) -> u64
    requires { book_verdict (book_entries book) ≡ Accepted }
    ensures { result ≡ choices_of (book_entries book).bids }
{
    let mut choices: u64 = 1;
    for bid in book.listed() {
        choices *= bid.count as u64 + 1;
    }
    choices
}

// How long the sheet of so many bids is at most.
#[tactic(auto, unfolding(crate::specs::Sizes::sheet_limit))]
fn sheet_limit(bids: usize) -> u64
    requires { bids ≤ 8 }
    ensures { result ≡ sheet_limit bids }
{
    39 + 66 * (bids as u64)
}
