// The entries for C that take or give a sampling table as text. Those that clear a book take the table's bytes before the book's, and the
// table's refusals come before all of the book's.
ghost use Rattle.std.specs.Prelude.{◌≡◌, length};
ghost use Rattle.refusal.specs.Number.{number_of, place_of};
ghost use Rattle.sheettext.specs.Sheet.{sheet_text};
ghost use Rattle.pagetext.specs.Page.{page_text};
ghost use Rattle.tableanswers.specs.TableAnswers.{table_written, table_output, printed_written, printed_output};
ghost use Rattle.tender.specs.FromText.{cleared_by_table, written_as, output_as};
ghost use Rattle.awardnumbers.specs.Numbers.{numbers_verdict, numbers_bought, numbers_total, numbers_count, numbers_output};

use crate::{awarded, told};

// The award sheet of a book, sampled by the table, and its length.
#[unsafe(no_mangle)]
pub extern "C" fn boccelarch_sheet_by_table(
    table: &[u8],
    text: &[u8],
    out: &mut [u8],
    place: &mut u64,
    bytes: &mut u64,
) -> u64
    ensures value { result ≡ number_of (written_as sheet_text (cleared_by_table table.now text.now) (length out.old)).verdict }
    ensures place_after { place.new ≡ place_of (written_as sheet_text (cleared_by_table table.now text.now) (length out.old)).verdict }
    ensures bytes_after { bytes.new ≡ (written_as sheet_text (cleared_by_table table.now text.now) (length out.old)).bytes }
    ensures out_after { out.new ≡ output_as sheet_text (cleared_by_table table.now text.now) out.old }
{
    let sheet = tender::sheet_by_table(table, text, out);
    told(sheet, place, bytes)
}

// The page of the award likewise.
#[unsafe(no_mangle)]
pub extern "C" fn boccelarch_page_by_table(
    table: &[u8],
    text: &[u8],
    out: &mut [u8],
    place: &mut u64,
    bytes: &mut u64,
) -> u64
    ensures value { result ≡ number_of (written_as page_text (cleared_by_table table.now text.now) (length out.old)).verdict }
    ensures place_after { place.new ≡ place_of (written_as page_text (cleared_by_table table.now text.now) (length out.old)).verdict }
    ensures bytes_after { bytes.new ≡ (written_as page_text (cleared_by_table table.now text.now) (length out.old)).bytes }
    ensures out_after { out.new ≡ output_as page_text (cleared_by_table table.now text.now) out.old }
{
    let page = tender::page_by_table(table, text, out);
    told(page, place, bytes)
}

// The award as numbers likewise.
#[unsafe(no_mangle)]
pub extern "C" fn boccelarch_award_by_table(
    table: &[u8],
    text: &[u8],
    rows: &mut [u64],
    place: &mut u64,
    bought: &mut u64,
    total: &mut u64,
    count: &mut u64,
) -> u64
    ensures value { result ≡ number_of (numbers_verdict (cleared_by_table table.now text.now) (length rows.old)) }
    ensures place_after { place.new ≡ place_of (numbers_verdict (cleared_by_table table.now text.now) (length rows.old)) }
    ensures bought_after { bought.new ≡ numbers_bought (cleared_by_table table.now text.now) (length rows.old) }
    ensures total_after { total.new ≡ numbers_total (cleared_by_table table.now text.now) (length rows.old) }
    ensures count_after { count.new ≡ numbers_count (cleared_by_table table.now text.now) (length rows.old) }
    ensures rows_after { rows.new ≡ numbers_output (cleared_by_table table.now text.now) rows.old }
{
    let answer = awardnumbers::award_by_table(table, text, rows);
    awarded(answer, place, bought, total, count)
}

// The table written out again, and its length.
#[unsafe(no_mangle)]
pub extern "C" fn boccelarch_write_table(
    table: &[u8],
    out: &mut [u8],
    place: &mut u64,
    bytes: &mut u64,
) -> u64
    ensures value { result ≡ number_of (table_written table.now (length out.old)).verdict }
    ensures place_after { place.new ≡ place_of (table_written table.now (length out.old)).verdict }
    ensures bytes_after { bytes.new ≡ (table_written table.now (length out.old)).bytes }
    ensures out_after { out.new ≡ table_output table.now out.old }
{
    let written = tender::write_table(table, out);
    told(written, place, bytes)
}

// The printed table as text, and its length.
#[unsafe(no_mangle)]
pub extern "C" fn boccelarch_printed_table(out: &mut [u8], place: &mut u64, bytes: &mut u64) -> u64
    ensures value { result ≡ number_of (printed_written (length out.old)).verdict }
    ensures place_after { place.new ≡ place_of (printed_written (length out.old)).verdict }
    ensures bytes_after { bytes.new ≡ (printed_written (length out.old)).bytes }
    ensures out_after { out.new ≡ printed_output out.old }
{
    let printed = tender::printed_table(out);
    told(printed, place, bytes)
}
