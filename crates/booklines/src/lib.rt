// The lines of a bid book, parsed into a record: the demand, and the bids.
#![tactic(auto)]

ghost use Rattle.std.specs.Prelude.{◌≡◌, ◌≤◌};
ghost use Rattle.scanner.specs.Scans.{ScansAs};
ghost use Rattle.booktext.specs.BookForm as Form;
ghost use Rattle.booktext.specs.Record.{bid_record, book_record};
ghost use Rattle.bookrecord.specs.Adding.{with_bids};
ghost use Rattle.booklines.specs.Records.{bid_started, with_read_bid, book_started};

// The segments of a bid.
mod segments;

use book::{Bid, Book, Order};
use money::{Blanks, CentsPerBlank};
use scanner::{Reader, Stop};

// What a bid has before its segments, in a record with none.
fn bidder(reader: &mut Reader<'_>) -> Result<Bid, Stop>
    ensures { ScansAs Form.bid_head_lem bid_started reader.old result reader.new }
{
    reader.word(b"(bid ")?;
    let [bidder, carriage] = numberline::spaced::<2>(reader)?;
    Ok(Bid {
        bidder,
        carriage: CentsPerBlank(carriage),
        ..bookrecord::empty_bid()
    })
}

fn bid(reader: &mut Reader<'_>) -> Result<Bid, Stop>
    ensures { ScansAs Form.bid bid_record reader.old result reader.new }
{
    let head = bidder(reader)?;
    let bid = segments::segments(reader, head)?;
    reader.word(b")\n")?;
    Ok(bid)
}

// The book with a bid more.
fn with_next(reader: &mut Reader<'_>, mut book: Book) -> Result<Book, Stop>
    requires { book.count ≤ reader.now.at }
    ensures { ScansAs Form.bid (with_read_bid book) reader.old result reader.new }
{
    let next = bid(reader)?;
    bookrecord::add_bid(&mut book, next);
    Ok(book)
}

// One or more bids, added to the record of a head.
fn bids(reader: &mut Reader<'_>, head: Book) -> Result<Book, Stop>
    requires { head.count ≡ 0 }
    ensures { ScansAs Form.bids (with_bids head) reader.old result reader.new }
{
    scanner::one_or_more(reader, b'(', head, with_next)
}

// The line of the demand and the allowance, in the record of a book with no bid.
fn demand(reader: &mut Reader<'_>) -> Result<Book, Stop>
    ensures { ScansAs Form.head book_started reader.old result reader.new }
{
    let [demand, allowance] = numberline::line::<2>(reader, b"(demand ", b")\n")?;
    let order = Order {
        demand: Blanks(demand),
        allowance: Blanks(allowance),
    };
    Ok(Book {
        order,
        ..bookrecord::empty_book()
    })
}

// All lines of a book.
pub fn lines(reader: &mut Reader<'_>) -> Result<Book, Stop>
    ensures { ScansAs Form.book book_record reader.old result reader.new }
{
    let head = demand(reader)?;
    bids(reader, head)
}
