// The lines of a book as data, and the book put into an output. A place is bounded so that no sum wraps.
ghost use Rattle.std.specs.Prelude.{◌≡◌, ◌+◌, ◌≤◌};
ghost use Rattle.lists.specs.Joined.{joined};
ghost use Rattle.book.specs.Entries.{bid_entries, book_entries};
ghost use Rattle.booktext.specs.BookText.{segment_text, bid_head, bid_text, book_head, book_text};
ghost use Rattle.printer.specs.Puts.{Puts};
ghost use Rattle.lines.specs.Line.{part_text};

use book::{Bid, Book, Segment};
use lines::Part;
use printer::Output;
use words::Word;

#[tactic(auto, using(lines::proofs::Together::together), unfolding(booktext::specs::BookText::segment_text))]
fn segment_line(s: &Segment) -> [Part; 5]
    ensures { joined part_text result ≡ segment_text s.now }
{
    [
        Part::Number(Word::Seg, s.start.0),
        Part::Number(Word::Space, s.end.0),
        Part::Number(Word::Space, s.unit.0),
        Part::Price(Word::Space, s.fixed),
        Part::Fixed(Word::Close),
    ]
}

// The bid is taken by value: behind a reference a proof is not told that a record holds six segments.
fn put_segments(out: &mut Output<'_>, bid: Bid)
    requires { out.old.at ≤ 1000000 }
    ensures puts { Puts out.old (joined segment_text (bid_entries bid).segments) out.new }
    ensures upper_bound { out.new.at ≤ out.old.at + 24000 }
{
    for segment in bid.listed() {
        lines::put(out, &segment_line(segment));
    }
}

// What stands before the segments of a bid.
#[tactic(auto, using(lines::proofs::Together::together), unfolding(booktext::specs::BookText::bid_head))]
fn bid_head(bid: &Bid) -> [Part; 2]
    ensures { joined part_text result ≡ bid_head (bid_entries bid.now) }
{
    [
        Part::Number(Word::Bid, bid.bidder),
        Part::Number(Word::Space, bid.carriage.0),
    ]
}

fn put_bid(out: &mut Output<'_>, bid: &Bid)
    requires { out.old.at ≤ 900000 }
    ensures puts { Puts out.old (bid_text (bid_entries bid.now)) out.new }
    ensures upper_bound { out.new.at ≤ out.old.at + 29000 }
{
    lines::put(out, &bid_head(bid));
    put_segments(out, *bid);
    lines::put_part(out, Part::Fixed(Word::CloseLine));
}

// By value too, for the eight bids that a record holds.
fn put_bids(out: &mut Output<'_>, book: Book)
    requires { out.old.at ≤ 4000 }
    ensures { Puts out.old (joined bid_text (book_entries book).bids) out.new }
{
    for bid in book.listed() {
        put_bid(out, bid);
    }
}

// The line of a book that stands before its bids.
#[tactic(auto, using(lines::proofs::Together::together), unfolding(booktext::specs::BookText::book_head))]
fn book_head(book: &Book) -> [Part; 3]
    ensures { joined part_text result ≡ book_head (book_entries book.now) }
{
    [
        Part::Number(Word::Demand, book.order.demand.0),
        Part::Number(Word::Space, book.order.allowance.0),
        Part::Fixed(Word::CloseLine),
    ]
}

pub fn put_book(out: &mut Output<'_>, book: &Book)
    requires { out.old.at ≡ 0 }
    ensures { Puts out.old (book_text (book_entries book.now)) out.new }
{
    lines::put(out, &book_head(book));
    put_bids(out, *book);
}
