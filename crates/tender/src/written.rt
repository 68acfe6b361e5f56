// The award of a text, written as a sheet or as a page.
ghost use Rattle.std.specs.Prelude.{◌≡◌, length};
ghost use Rattle.awardwriter.specs.Layout.{layout_text};
ghost use Rattle.tender.specs.FromText.{written_as, output_as, sheet_written, sheet_output, page_written, page_output};

use crate::awards::clear;
use awardwriter::Layout;
use clearing::Clearing;
use output::TextWritten;

// Writes what was cleared at the beginning of the output: refused as it was cleared, then by 10 with the bytes needed. With a refusal the
// output is unchanged.
#[tactic(auto, unfolding(crate::specs::FromText::written_as, crate::specs::FromText::output_as, output::specs::Writing::writing_verdict, output::specs::Writing::written_of, output::specs::Writing::output_after))]
pub fn write_as(layout: Layout, cleared: Clearing, out: &mut [u8]) -> TextWritten
    ensures value { result ≡ written_as (layout_text layout) cleared (length out.old) }
    ensures out_after { out.new ≡ output_as (layout_text layout) cleared out.old }
{
    match cleared.verdict {
        Ok(()) => awardwriter::write(layout, cleared.award, out),
        Err(refusal) => TextWritten::from(Err(refusal)),
    }
}

// Writes the award sheet of a text's book, sampled by the printed table: refused by 1, 2, 3 to 8, then 9, then 10.
pub fn sheet(text: &[u8], out: &mut [u8]) -> TextWritten
    ensures value { result ≡ sheet_written text.now (length out.old) }
    ensures out_after { out.new ≡ sheet_output text.now out.old }
{
    write_as(Layout::Sheet, clear(text), out)
}

// Writes the page of the award likewise: 10 gives the bytes of the page.
pub fn page(text: &[u8], out: &mut [u8]) -> TextWritten
    ensures value { result ≡ page_written text.now (length out.old) }
    ensures out_after { out.new ≡ page_output text.now out.old }
{
    write_as(Layout::Page, clear(text), out)
}
