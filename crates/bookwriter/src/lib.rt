// Writing a bid book as text.
#![tactic(auto)]

ghost use Rattle.std.specs.Prelude.{◌≡◌, length};
ghost use Rattle.bookwriter.specs.Writing.{text_of, write_of, output_of};

mod bids;

use book::Book;
use output::{Text, TextWritten};
use printer::Output;

// A book as the text that it is.
#[derive(Clone, Copy)]
struct BookText<'a> {
    book: &'a Book,
}

impl Text for BookText<'_> {
    ghost text = { λ it. text_of it.book.now };

    fn put(&self, out: &mut Output<'_>) {
        bids::put_book(out, self.book);
    }
}

// How many bytes the text of a book has, also for `sizes`.
pub fn measure(book: Book) -> usize
    ensures { result ≡ length (text_of book) }
{
    output::measure(&BookText { book: &book })
}

// Writes the text of an accepted book at the beginning of the output. With a refusal the output is unchanged.
pub fn write(book: Book, out: &mut [u8]) -> TextWritten
    ensures value { result ≡ write_of book (length out.old) }
    ensures out_after { out.new ≡ output_of book out.old }
{
    let verdict = bookrules::check(book);
    TextWritten::from(output::write(verdict, &BookText { book: &book }, out))
}
