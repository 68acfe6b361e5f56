// Answers as lines of standard output.
use money::Blanks;
use output::TextWritten;
use refusal::Verdict;
use sizes::BookSizes;
use split::SplitPrice;
use std::io::Write;
use std::{fmt, io};

// A verdict as it is shown.
#[derive(Clone, Copy)]
pub struct Shown(pub Verdict);

impl fmt::Display for Shown {
    fn fmt<W: fmt::Write>(&self, f: &mut fmt::Formatter<W>) -> fmt::Result {
        let verdict = self.0;
        if verdict.is_ok() {
            return write!(f, "accepted");
        }
        let number = refusal::number(verdict);
        let place = refusal::place(verdict);
        write!(f, "(refused {number} {place})")
    }
}

pub fn bytes(rt: &HostRuntime, bytes: &[u8]) -> io::Result<()> {
    rt.stdout().write_all(bytes)
}

pub fn line(rt: &HostRuntime, words: &[u8]) -> io::Result<()> {
    bytes(rt, words)?;
    bytes(rt, b"\n")
}

// What a writer answered, and the whole output.
pub fn output(rt: &HostRuntime, written: TextWritten, out: &[u8]) -> io::Result<()> {
    println!(rt; "{}, {}", Shown(written.verdict), written.bytes)?;
    line(rt, out)
}

// The bytes of a book's text, its choices of segments, and the most bytes of its sheet.
pub fn figures(rt: &HostRuntime, figures: BookSizes) -> io::Result<()> {
    println!(rt;
        "{}, {}, {}, {}",
        Shown(figures.verdict),
        figures.bytes,
        figures.choices,
        figures.sheet
    )
}

pub fn price(rt: &HostRuntime, split: SplitPrice) -> io::Result<()> {
    let meets = if split.meets { "yes" } else { "no" };
    println!(rt; "{}, {}, {meets}", Shown(split.verdict), split.price.0)
}

pub fn sample(rt: &HostRuntime, sample: Blanks) -> io::Result<()> {
    println!(rt; "{}", sample.0)
}
