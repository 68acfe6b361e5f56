// Writing a sampling table as text.
#![tactic(auto)]

ghost use Rattle.std.specs.Prelude.{◌≡◌, length};
ghost use Rattle.tablewriter.specs.Writing.{table_text_of, write_table_of, table_output_of};

mod bands;

use output::{Text, TextWritten};
use printer::Output;
use sampling::Table;

// A table as the text that it is.
#[derive(Clone, Copy)]
struct TableText<'a> {
    table: &'a Table,
}

impl Text for TableText<'_> {
    ghost text = { λ it. table_text_of it.table.now };

    fn put(&self, out: &mut Output<'_>) {
        bands::put_bands(out, *self.table);
    }
}

// Writes the text of a table that passes at the beginning of the output. With a refusal the output is unchanged.
pub fn write(table: Table, out: &mut [u8]) -> TextWritten
    ensures value { result ≡ write_table_of table (length out.old) }
    ensures out_after { out.new ≡ table_output_of table out.old }
{
    let verdict = tablerules::check(table);
    TextWritten::from(output::write(verdict, &TableText { table: &table }, out))
}
