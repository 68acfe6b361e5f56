// The award of a text, sampled by a table that comes as text before it, as a record and written as a sheet or as a page.
ghost use Rattle.std.specs.Prelude.{◌≡◌, length};
ghost use Rattle.sheettext.specs.Sheet.{sheet_text};
ghost use Rattle.pagetext.specs.Page.{page_text};
ghost use Rattle.tender.specs.FromText.{cleared_by_table, written_as, output_as};

use crate::awards::clear_sampled;
use crate::written::write_as;
use awardwriter::Layout;
use clearing::Clearing;
use output::TextWritten;

// The award of a text's book, sampled by the table of a text: refused as reading refuses the table, then as `clear` refuses the book.
#[tactic(auto, unfolding(crate::specs::FromText::cleared_by_table))]
pub fn clear_by_table(table: &[u8], text: &[u8]) -> Clearing
    ensures { result ≡ cleared_by_table table.now text.now }
{
    match tablereader::table_of(table) {
        Ok(loaded) => clear_sampled(loaded, text),
        Err(refusal) => Clearing::from(Err(refusal)),
    }
}

// Writes the award sheet of a text's book, sampled by the table of a text.
pub fn sheet_by_table(table: &[u8], text: &[u8], out: &mut [u8]) -> TextWritten
    ensures value { result ≡ written_as sheet_text (cleared_by_table table.now text.now) (length out.old) }
    ensures out_after { out.new ≡ output_as sheet_text (cleared_by_table table.now text.now) out.old }
{
    write_as(Layout::Sheet, clear_by_table(table, text), out)
}

// Writes the page of the award likewise.
pub fn page_by_table(table: &[u8], text: &[u8], out: &mut [u8]) -> TextWritten
    ensures value { result ≡ written_as page_text (cleared_by_table table.now text.now) (length out.old) }
    ensures out_after { out.new ≡ output_as page_text (cleared_by_table table.now text.now) out.old }
{
    write_as(Layout::Page, clear_by_table(table, text), out)
}
