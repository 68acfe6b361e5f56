// An award written as text: as a sheet or as a page.
#![tactic(auto)]

ghost use Rattle.std.specs.Prelude.{◌≡◌, length};
ghost use Rattle.refusal.specs.Verdict.{Accepted};
ghost use Rattle.output.specs.Writing.{written_of, output_after};
ghost use Rattle.awardwriter.specs.Layout.{layout_text};

// Which parts the lines of a layout have; the lines put one after the other.
mod parts;
mod rows;

use award::Award;
use output::TextWritten;
use rows::LaidOut;

// The sheet has a form a line, and the page has columns. An enum and no trait: `write` takes the layout as a value.
#[derive(Clone, Copy)]
pub enum Layout {
    Sheet,
    Page,
}

// Writes the sheet or the page of any award at the beginning of the output. With a refusal, which can be 10 alone, the output is
// unchanged.
pub fn write(layout: Layout, award: Award, out: &mut [u8]) -> TextWritten
    ensures value { result ≡ written_of Accepted (layout_text layout award) (length out.old) }
    ensures out_after { out.new ≡ output_after Accepted (layout_text layout award) out.old }
{
    let text = LaidOut {
        layout,
        award: &award,
    };
    output::write(Ok(()), &text, out).into()
}
