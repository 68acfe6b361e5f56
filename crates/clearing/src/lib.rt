// Clearing a tender: the award of a bid book.
#![tactic(auto)]

ghost use Rattle.std.specs.Prelude.{◌≡◌, take};
ghost use Rattle.lists.specs.Padded.{padded};
ghost use Rattle.book.specs.Entries.{book_entries};
ghost use Rattle.sampling.specs.Entries.{table_entries};
ghost use Rattle.comparison.specs.Records.{blanks_in};
ghost use Rattle.award.specs.Award.{no_row};
ghost use Rattle.clearing.specs.Clearing.{rows_from, clearing_told, clear_sampled, clear_of, clear_by_table, BookAward};

use award::{Award, Row};
use book::Book;
use comparison::PricedDivision;
use refusal::{Refusal, Rule, Verdict};
use sampling::Table;

// The award of a book, or zeros and `Nothing` beside a refusal.
// No Result: it is the answer of an entry, and by document 01 zeros stand beside a refusal.
#[derive(Clone, Copy, PartialEq, Eq)]
pub struct Clearing {
    pub verdict: Verdict,
    pub award: Award,
}

// What the entries that clear a book answer, from a record or a text.
impl From<Result<Award, Refusal>> for Clearing {
    ghost from_gives = { λ awarded clearing. clearing ≡ clearing_told awarded };

    fn from(awarded: Result<Award, Refusal>) -> Clearing {
        match awarded {
            Ok(award) => Clearing {
                verdict: Ok(()),
                award,
            },
            Err(refusal) => Clearing {
                verdict: Err(refusal),
                award: award::no_award(),
            },
        }
    }
}

// A row for each bid, from the award.
fn rows(table: Table, book: Book, award: PricedDivision) -> [Row; 8]
    requires { BookAward book award }
    ensures { result ≡ padded 8 no_row (rows_from (table_entries table) (book_entries book) 0 (book_entries book).bids (take book.count (blanks_in award.quantities))) }
{
    let mut rows = [award::no_row(); 8];
    for (i, bid) in book.listed().iter().enumerate() {
        let total = without::total_beside(book, i, award);
        rows[i] = award::row_of(table, *bid, award.quantities[i], total);
    }
    rows
}

// Refused by rules 3 to 8 as `bookrules::check` refuses the record, by rule 9 where its bids have no division.
fn awarded(table: Table, book: Book) -> Result<Award, Refusal>
    ensures { clearing_told result ≡ clear_sampled (table_entries table) (book_entries book) }
{
    bookrules::check(book)?;
    let best = search::best_division(book).ok_or(Rule::NotCovered.at(0))?;
    let rows = rows(table, book, best);
    Ok(Award {
        demand: book.order.demand,
        bought: best.bought,
        total: best.cost,
        count: book.count,
        rows,
    })
}

// Clears any record, sampled by a table. It is no entry: it does not look whether the table passes.
pub fn clear_sampled(table: Table, book: Book) -> Clearing
    ensures { result ≡ clear_sampled (table_entries table) (book_entries book) }
{
    awarded(table, book).into()
}

// Clears any record, sampled by the printed table.
pub fn clear(book: Book) -> Clearing
    ensures { result ≡ clear_of (book_entries book) }
{
    clear_sampled(sampling::printed(), book)
}

// Clears any record, sampled by any table: refused by rule 12 as `tablerules::check` refuses the table, then as `clear` refuses the book.
#[tactic(auto, unfolding(crate::specs::Clearing::clear_by_table))]
pub fn clear_by_table(table: Table, book: Book) -> Clearing
    ensures { result ≡ clear_by_table (table_entries table) (book_entries book) }
{
    match tablerules::check(table) {
        Ok(()) => clear_sampled(table, book),
        Err(refusal) => Clearing::from(Err(refusal)),
    }
}
