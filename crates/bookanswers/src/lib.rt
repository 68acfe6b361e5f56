// What is answered about the book of a text: the book written out again, its sizes, and the price of a proposed split of it.
// Each is refused first as reading refuses the text. The entries are `tender`'s.
#![tactic(auto)]

ghost use Rattle.std.specs.Prelude.{◌≡◌, length};
ghost use Rattle.bookanswers.specs.BookAnswers.{book_written, book_output, sizes_text, split_text};

use output::TextWritten;
use sizes::BookSizes;
use split::SplitPrice;

// Writes a text's book out again.
#[tactic(auto, using(roundtrip::proofs::Back::book_accepted), unfolding(crate::specs::BookAnswers::book_written, crate::specs::BookAnswers::book_output, output::specs::Writing::writing_verdict, output::specs::Writing::written_of, output::specs::Writing::output_after))]
pub fn write(text: &[u8], out: &mut [u8]) -> TextWritten
    ensures value { result ≡ book_written text.now (length out.old) }
    ensures out_after { out.new ≡ book_output text.now out.old }
{
    match bookreader::book_of(text) {
        Ok(book) => bookwriter::write(book, out),
        Err(refusal) => TextWritten::from(Err(refusal)),
    }
}

// The three figures of a text's book.
#[tactic(auto, unfolding(crate::specs::BookAnswers::sizes_text))]
pub fn sizes(text: &[u8]) -> BookSizes
    ensures { result ≡ sizes_text text.now }
{
    match bookreader::book_of(text) {
        Ok(book) => sizes::sizes(book),
        Err(refusal) => BookSizes::from(Err(refusal)),
    }
}

// The price of a proposed split of a text's book.
#[tactic(auto, unfolding(crate::specs::BookAnswers::split_text))]
pub fn price_split(text: &[u8], quantities: &[u64]) -> SplitPrice
    ensures { result ≡ split_text text.now quantities.now }
{
    match bookreader::book_of(text) {
        Ok(book) => split::price_split(book, quantities),
        Err(refusal) => SplitPrice::from(Err(refusal)),
    }
}
