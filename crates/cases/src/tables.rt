// What is asked about the text of a sampling table.
use crate::question::Question;
use crate::show;
use awardwriter::Layout;
use money::Blanks;
use std::io;

// The book of document 01.
const BOOK: &[u8] =
    b"(demand 120 0)\n(bid 3 0 (seg 1 60 400 0) (seg 61 100 350 -500))\n(bid 8 0 (seg 20 80 380 1000))\n(bid 12 0 (seg 120 120 370 0))\n";

pub fn answer(rt: &HostRuntime, question: Question, out: &mut [u8]) -> io::Result<()> {
    let table = question.body;
    match question.kind {
        b'l' => printed(rt, table, BOOK),
        b'o' => printed(rt, table, b"(demand 0 0)\n"),
        b'w' => {
            let written = tender::write_table(table, out);
            show::output(rt, written, out)
        }
        _ => sample(rt, table, question.numbers.quantities()),
    }
}

// What the program `clear` prints for a book, sampled by the table.
fn printed(rt: &HostRuntime, table: &[u8], book: &[u8]) -> io::Result<()> {
    let mut out = [b'.'; 600];
    let end = printout::print_by_table(Layout::Sheet, table, book, &mut out);
    show::bytes(rt, &out[..end])
}

// Of the first quantity, by the table that is read, which is all zeros beside a refusal.
fn sample(rt: &HostRuntime, table: &[u8], quantities: &[u64]) -> io::Result<()> {
    let table = tablereader::read(table).table;
    let Some(quantity) = quantities.first() else {
        return Ok(());
    };
    show::sample(rt, sampling::sample_by_table(table, Blanks(*quantity)))
}
