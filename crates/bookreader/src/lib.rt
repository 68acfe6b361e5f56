// Reading a bid book from its text.
#![tactic(auto)]

ghost use Rattle.std.specs.Prelude.{◌≡◌};
ghost use Rattle.bookreader.specs.Reading.{read_of, book_of_text};

use book::Book;
use refusal::{Refusal, Rule, Verdict};
use scanner::Reader;

// The book of a text, or all zeros beside a refusal.
// No Result: it is the answer of an entry, and by document 01 zeros stand beside a refusal.
#[derive(Clone, Copy)]
pub struct BookRead {
    pub verdict: Verdict,
    pub book: Book,
}

// The book of a text, or why it is refused. Why there is a function of the same shape for tables is said at tablereader::table_of.
// The whole text is parsed before rules 3 to 8 are looked at.
pub fn book_of(text: &[u8]) -> Result<Book, Refusal>
    ensures { result ≡ book_of_text text.now }
{
    let fits = text.len() <= 4_096;
    Rule::TextLength.unless(fits, 4_096)?;
    let mut reader = Reader::new(text);
    let book = booklines::lines(&mut reader)?;
    let ended = reader.at == text.len();
    Rule::Shape.unless(ended, reader.at as u64)?;
    bookrules::check(book)?;
    Ok(book)
}

// Reads a book from any bytes.
pub fn read(text: &[u8]) -> BookRead
    ensures { result ≡ read_of text.now }
{
    match book_of(text) {
        Ok(book) => BookRead {
            verdict: Ok(()),
            book,
        },
        Err(refusal) => BookRead {
            verdict: Err(refusal),
            book: bookrecord::empty_book(),
        },
    }
}
