// Clears small books a second way, by listing all splits, and prints how often the two ways agree, in every column of every row. What
// it must print stands in stdout.
#![tactic(auto)]

// Small books and their records; all splits of a book; the comparison.
mod agree;
mod small_books;
mod splits;

use book::Book;
use refusal::Rule;
use small_books::{Numbers, SmallBook};
use std::io;

// `small_books` should make no book that is refused by a rule before 9.
#[derive(Clone, Copy, Default)]
struct Counts {
    refused: u64,
    covered: u64,
    not_covered: u64,
    ties: u64,
    above: u64,
    alike: u64,
    different: u64,
}

fn main(rt: HostRuntime) -> io::Result<()> {
    let mut numbers = Numbers::new();
    let mut counts = Counts::default();
    for _ in 0..400 {
        counts.add(&small_books::book(&mut numbers));
    }
    counts.print(&rt)
}

impl Counts {
    fn add(&mut self, book: &SmallBook) {
        let cleared = clearing::clear(Book::from(*book));
        let best = splits::clear(book, None);
        let same = agree::agrees(book, best, cleared);
        let other = matches!(cleared.verdict, Err(refusal) if refusal.rule != Rule::NotCovered);
        tally(&mut self.refused, other);
        tally(&mut self.covered, best.is_some());
        tally(&mut self.not_covered, best.is_none());
        if let Some(best) = best {
            tally(&mut self.ties, best.tie);
            tally(
                &mut self.above,
                u16::from(book.demand) < splits::bought(best.split),
            );
        }
        tally(&mut self.alike, same);
        tally(&mut self.different, !same);
    }

    fn print(&self, rt: &HostRuntime) -> io::Result<()> {
        println!(rt; "small books refused: {}", self.refused)?;
        println!(rt; "small books covered: {}", self.covered)?;
        println!(rt; "small books not covered: {}", self.not_covered)?;
        println!(rt; "with a tie for the cheapest: {}", self.ties)?;
        println!(rt; "bought above the demand: {}", self.above)?;
        println!(rt; "cleared alike both ways: {}", self.alike)?;
        println!(rt; "cleared differently: {}", self.different)
    }
}

// One more where it is so.
fn tally(count: &mut u64, yes: bool) {
    *count = count.saturating_add(u64::from(yes));
}
