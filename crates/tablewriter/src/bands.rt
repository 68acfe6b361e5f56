// The line of a band as data, and the lines of a table put into an output.
ghost use Rattle.std.specs.Prelude.{◌≡◌};
ghost use Rattle.lists.specs.Joined.{joined};
ghost use Rattle.printer.specs.Puts.{Puts};
ghost use Rattle.lines.specs.Line.{part_text};
ghost use Rattle.sampling.specs.Entries.{table_entries};
ghost use Rattle.tabletext.specs.TableText.{band_text, table_text};

use lines::Part;
use printer::Output;
use sampling::{Band, Table};
use words::Word;

#[tactic(auto, using(lines::proofs::Together::together), unfolding(tabletext::specs::TableText::band_text))]
fn band_line(b: &Band) -> [Part; 3]
    ensures { joined part_text result ≡ band_text b.now }
{
    [
        Part::Number(Word::Band, b.highest),
        Part::Number(Word::Space, b.sample),
        Part::Fixed(Word::CloseLine),
    ]
}

// The table is taken by value: behind a reference a proof is not told that a record holds sixteen bands.
pub fn put_bands(out: &mut Output<'_>, table: Table)
    requires { out.old.at ≡ 0 }
    ensures { Puts out.old (table_text (table_entries table)) out.new }
{
    for band in table.listed() {
        lines::put(out, &band_line(band));
    }
}
