// What is asked about a text.
ghost use Rattle.std.specs.Prelude.{◌≤◌};

use crate::question::Question;
use crate::show;
use crate::show::Shown;
use awardwriter::Layout;
use refusal::Rule;
use std::io;

pub fn answer(rt: &HostRuntime, question: Question, out: &mut [u8]) -> io::Result<()> {
    let text = question.body;
    match question.kind {
        b't' => printed(rt, text),
        b'f' => show::figures(rt, tender::sizes(text)),
        b'p' => show::price(rt, tender::price_split(text, question.numbers.quantities())),
        b'a' => {
            let written = tender::sheet(text, out);
            show::output(rt, written, out)
        }
        b'o' => {
            let written = tender::page(text, out);
            show::output(rt, written, out)
        }
        b'w' => {
            let written = tender::write(text, out);
            show::output(rt, written, out)
        }
        _ => cuts(rt, text),
    }
}

// What the program `clear` prints for it.
fn printed(rt: &HostRuntime, text: &[u8]) -> io::Result<()> {
    let mut out = [b'.'; 600];
    let end = printout::print(Layout::Sheet, text, &mut out);
    show::bytes(rt, &out[..end])
}

// Every proper beginning of a text is refused by rule 2 at its own length, or shown.
fn cuts(rt: &HostRuntime, text: &[u8]) -> io::Result<()> {
    let mut refused = 0usize;
    for end in 0..text.len() {
        let verdict = tender::sizes(&text[..end]).verdict;
        if verdict == Err(Rule::Shape.at(end as u64)) {
            refused += 1;
        } else {
            println!(rt; "cut at {end}: {}", Shown(verdict))?;
        }
    }
    println!(rt; "cut elsewhere, refused 2 at the cut: {refused}")
}
