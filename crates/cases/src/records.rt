// Records, made of numbers, and what is asked about them.
use crate::numbers::{NEGATIVE, Numbers};
use crate::question::Question;
use crate::show;
use crate::show::Shown;
use awardwriter::Layout;
use book::{Bid, Book, Order, Segment};
use money::{Blanks, Cents, CentsPerBlank};
use output::TextWritten;
use std::slice::Iter;
use std::{array, io};

pub fn answer(rt: &HostRuntime, question: Question, out: &mut [u8]) -> io::Result<()> {
    let book = book(question.body);
    match question.kind {
        b'b' => println!(rt; "{}", Shown(bookrules::check(book))),
        b'f' => show::figures(rt, sizes::sizes(book)),
        b'p' => show::price(rt, split::price_split(book, question.numbers.quantities())),
        b'a' => award(rt, Layout::Sheet, book, out),
        b'o' => award(rt, Layout::Page, book, out),
        b'w' => {
            let written = bookwriter::write(book, out);
            show::output(rt, written, out)
        }
        _ => sample(rt, question.numbers.quantities()),
    }
}

// The award written in a layout, also the empty one beside a refusal.
fn award(rt: &HostRuntime, layout: Layout, book: Book, out: &mut [u8]) -> io::Result<()> {
    let cleared = clearing::clear(book);
    let written = TextWritten {
        verdict: cleared.verdict,
        bytes: awardwriter::write(layout, cleared.award, out).bytes,
    };
    show::output(rt, written, out)
}

// Of the first quantity.
fn sample(rt: &HostRuntime, quantities: &[u64]) -> io::Result<()> {
    let Some(quantity) = quantities.first() else {
        return Ok(());
    };
    show::sample(rt, sampling::sample(Blanks(*quantity)))
}

// The first row has the demand, the allowance and the count of bids, each further row the bidder, the carriage, the count
// of segments, and the segments.
fn book(text: &[u8]) -> Book {
    let numbers = Numbers::of(text);
    let (first, mut left) = numbers.all.split_at(27);
    let mut words = first.iter();
    Book {
        order: Order {
            demand: Blanks(number(&mut words)),
            allowance: Blanks(number(&mut words)),
        },
        count: number(&mut words) as usize,
        bids: array::from_fn(|_| {
            let (row, rest) = left.split_at(left.len().min(27));
            left = rest;
            bid(row)
        }),
    }
}

fn bid(row: &[u64]) -> Bid {
    let mut words = row.iter();
    Bid {
        bidder: number(&mut words),
        carriage: CentsPerBlank(number(&mut words)),
        count: number(&mut words) as usize,
        segments: array::from_fn(|_| segment(&mut words)),
    }
}

fn segment(words: &mut Iter<'_, u64>) -> Segment {
    Segment {
        start: Blanks(number(words)),
        end: Blanks(number(words)),
        unit: CentsPerBlank(number(words)),
        fixed: cents(number(words)),
    }
}

// The next number of a row.
fn number(words: &mut Iter<'_, u64>) -> u64 {
    words.next().copied().unwrap_or(0)
}

fn cents(n: u64) -> Cents {
    if n < NEGATIVE {
        return Cents(n as i64);
    }
    let magnitude = (n - NEGATIVE) % 10_000_000_000_000;
    Cents(-(magnitude as i64))
}
