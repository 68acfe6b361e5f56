// What is answered about the text of a sampling table, and the printed table as text.
#![tactic(auto)]

ghost use Rattle.std.specs.Prelude.{◌≡◌, length};
ghost use Rattle.tableanswers.specs.TableAnswers.{table_written, table_output, printed_written, printed_output};

use output::TextWritten;

// Writes a text's table out again.
#[tactic(auto, using(roundtrip::proofs::Tables::table_passes), unfolding(crate::specs::TableAnswers::table_written, crate::specs::TableAnswers::table_output, output::specs::Writing::writing_verdict, output::specs::Writing::written_of, output::specs::Writing::output_after))]
pub fn write_table(text: &[u8], out: &mut [u8]) -> TextWritten
    ensures value { result ≡ table_written text.now (length out.old) }
    ensures out_after { out.new ≡ table_output text.now out.old }
{
    match tablereader::table_of(text) {
        Ok(table) => tablewriter::write(table, out),
        Err(refusal) => TextWritten::from(Err(refusal)),
    }
}

// Writes the printed table, so that a caller can start from it.
#[tactic(auto, using(tablerules::proofs::Passing::printed_passes), unfolding(crate::specs::TableAnswers::printed_written, crate::specs::TableAnswers::printed_output, output::specs::Writing::writing_verdict, output::specs::Writing::written_of, output::specs::Writing::output_after))]
pub fn printed_table(out: &mut [u8]) -> TextWritten
    ensures value { result ≡ printed_written (length out.old) }
    ensures out_after { out.new ≡ printed_output out.old }
{
    tablewriter::write(sampling::printed(), out)
}
