// What the programs do: the sampling table is read from the file `sampling` of the working directory, where there is one, and a bid book from
// standard input; its award in a layout, or the one line of the refusal, goes to standard output. What fails, and a table that is refused, is
// told on standard error, under the program's name.
#![tactic(auto)]

ghost use Rattle.std.specs.Prelude.{◌≡◌, ◌≤◌, length};

mod told;

use awardwriter::Layout;
use std::io::Write;
use told::Program;

pub fn run(rt: &HostRuntime, layout: Layout) {
    let program = Program { rt, layout };
    // One byte more than a text may have, so that a longer one is seen to be too long; so it is with the book's.
    let mut table = [0u8; 4097];
    match input::read_file(rt, "sampling", &mut table) {
        Ok(None) => clear_book(program, None),
        Ok(Some(n)) => clear_book(program, Some(&table[..n])),
        // What is left of a text after a failed read can still be a whole text, so no award is printed; so it is with the book's.
        Err(error) => program.failed("sampling", error),
    }
}

// Sampled by the table, if there is one, and else by the printed one.
fn clear_book(program: Program, table: Option<&[u8]>) {
    let mut text = [0u8; 4097];
    match input::read(&mut program.rt.stdin(), &mut text) {
        Ok(n) => print(program, table, &text[..n]),
        Err(error) => program.failed("standard input", error),
    }
}

fn print(program: Program, table: Option<&[u8]>, text: &[u8]) {
    let mut out = [0u8; 600];
    let n = put(program.layout, table, text, &mut out);
    if let Err(error) = program.rt.stdout().write_all(&out[..n]) {
        program.failed("standard output", error);
    }
    // The line of a refusal does not say which of the two texts it is about.
    if let Some(table) = table
        && tablereader::read(table).verdict.is_err()
    {
        program.table_refused();
    }
}

fn put(layout: Layout, table: Option<&[u8]>, text: &[u8], out: &mut [u8]) -> usize
    requires { length out.old ≡ 600 }
    ensures { result ≤ length out.new }
{
    match table {
        Some(table) => printout::print_by_table(layout, table, text, out),
        None => printout::print(layout, text, out),
    }
}
