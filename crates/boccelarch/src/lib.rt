// The entries for C. Each takes the bytes of a bid book, gives the number of the refusal (0 where nothing is refused), and puts its
// place and the other results behind references. What they answer is worked out in `tender` and `awardnumbers`.
#![tactic(auto)]

ghost use Rattle.std.specs.Prelude.{◌≡◌, cond, length};
ghost use Rattle.refusal.specs.Number.{number_of, place_of};
ghost use Rattle.bookanswers.specs.BookAnswers.{book_written, book_output, sizes_text, split_text};
ghost use Rattle.tender.specs.FromText.{sheet_written, sheet_output, page_written, page_output};
ghost use Rattle.awardnumbers.specs.Numbers.{award_verdict, award_bought, award_total, award_count, award_output};

// Those about a named bidder, and those with a sampling table.
mod bidders;
mod tables;

use awardnumbers::AwardNumbers;
pub use bidders::boccelarch_too_dear;
use output::TextWritten;
use refusal::Verdict;
pub use tables::{
    boccelarch_award_by_table, boccelarch_page_by_table, boccelarch_printed_table,
    boccelarch_sheet_by_table, boccelarch_write_table,
};

// The number and the place of what is refused, or 0 and 0.
fn refused(verdict: Verdict, place: &mut u64) -> u64
    ensures value { result ≡ number_of verdict }
    ensures place_after { place.new ≡ place_of verdict }
{
    *place = refusal::place(verdict);
    refusal::number(verdict)
}

// What a writer answered.
fn told(written: TextWritten, place: &mut u64, bytes: &mut u64) -> u64
    ensures value { result ≡ number_of written.verdict }
    ensures place_after { place.new ≡ place_of written.verdict }
    ensures bytes_after { bytes.new ≡ written.bytes }
{
    *bytes = written.bytes;
    refused(written.verdict, place)
}

// What an award as numbers is answered by, beside its rows.
fn awarded(
    answer: AwardNumbers,
    place: &mut u64,
    bought: &mut u64,
    total: &mut u64,
    count: &mut u64,
) -> u64
    ensures value { result ≡ number_of answer.verdict }
    ensures place_after { place.new ≡ place_of answer.verdict }
    ensures bought_after { bought.new ≡ answer.bought }
    ensures total_after { total.new ≡ answer.total }
    ensures count_after { count.new ≡ answer.count }
{
    *bought = answer.bought;
    *total = answer.total;
    *count = answer.count;
    refused(answer.verdict, place)
}

// The award sheet of a book, and its length.
#[unsafe(no_mangle)]
pub extern "C" fn boccelarch_sheet(
    text: &[u8],
    out: &mut [u8],
    place: &mut u64,
    bytes: &mut u64,
) -> u64
    ensures value { result ≡ number_of (sheet_written text.now (length out.old)).verdict }
    ensures place_after { place.new ≡ place_of (sheet_written text.now (length out.old)).verdict }
    ensures bytes_after { bytes.new ≡ (sheet_written text.now (length out.old)).bytes }
    ensures out_after { out.new ≡ sheet_output text.now out.old }
{
    let sheet = tender::sheet(text, out);
    told(sheet, place, bytes)
}

// The page of the award, and its length.
#[unsafe(no_mangle)]
pub extern "C" fn boccelarch_page(
    text: &[u8],
    out: &mut [u8],
    place: &mut u64,
    bytes: &mut u64,
) -> u64
    ensures value { result ≡ number_of (page_written text.now (length out.old)).verdict }
    ensures place_after { place.new ≡ place_of (page_written text.now (length out.old)).verdict }
    ensures bytes_after { bytes.new ≡ (page_written text.now (length out.old)).bytes }
    ensures out_after { out.new ≡ page_output text.now out.old }
{
    let page = tender::page(text, out);
    told(page, place, bytes)
}

// The book written out again, and its length.
#[unsafe(no_mangle)]
pub extern "C" fn boccelarch_write(
    text: &[u8],
    out: &mut [u8],
    place: &mut u64,
    bytes: &mut u64,
) -> u64
    ensures value { result ≡ number_of (book_written text.now (length out.old)).verdict }
    ensures place_after { place.new ≡ place_of (book_written text.now (length out.old)).verdict }
    ensures bytes_after { bytes.new ≡ (book_written text.now (length out.old)).bytes }
    ensures out_after { out.new ≡ book_output text.now out.old }
{
    let book = tender::write(text, out);
    told(book, place, bytes)
}

// How long the book's text is, how many choices of segments it has, and how long its sheet is at most.
#[unsafe(no_mangle)]
pub extern "C" fn boccelarch_sizes(
    text: &[u8],
    place: &mut u64,
    bytes: &mut u64,
    choices: &mut u64,
    sheet: &mut u64,
) -> u64
    ensures value { result ≡ number_of (sizes_text text.now).verdict }
    ensures place_after { place.new ≡ place_of (sizes_text text.now).verdict }
    ensures bytes_after { bytes.new ≡ (sizes_text text.now).bytes }
    ensures choices_after { choices.new ≡ (sizes_text text.now).choices }
    ensures sheet_after { sheet.new ≡ (sizes_text text.now).sheet }
{
    let figures = tender::sizes(text);
    *bytes = figures.bytes;
    *choices = figures.choices;
    *sheet = figures.sheet;
    refused(figures.verdict, place)
}

// The price of a proposed split, one quantity for each bid, and 1 if its quantities add up to at least the demand and at most
// demand plus allowance, else 0.
#[unsafe(no_mangle)]
pub extern "C" fn boccelarch_split(
    text: &[u8],
    quantities: &[u64],
    place: &mut u64,
    price: &mut i64,
    meets: &mut u64,
) -> u64
    ensures value { result ≡ number_of (split_text text.now quantities.now).verdict }
    ensures place_after { place.new ≡ place_of (split_text text.now quantities.now).verdict }
    ensures price_after { price.new ≡ (split_text text.now quantities.now).price.0 }
    ensures meets_after { meets.new ≡ cond (split_text text.now quantities.now).meets 1 0 }
{
    let answer = tender::price_split(text, quantities);
    let cents = answer.price.0;
    *price = cents;
    *meets = u64::from(answer.meets);
    refused(answer.verdict, place)
}

// The award as numbers: what is bought, its total, how many bids there are, and seven numbers for each (`row_numbers`).
#[unsafe(no_mangle)]
pub extern "C" fn boccelarch_award(
    text: &[u8],
    rows: &mut [u64],
    place: &mut u64,
    bought: &mut u64,
    total: &mut u64,
    count: &mut u64,
) -> u64
    ensures value { result ≡ number_of (award_verdict text.now (length rows.old)) }
    ensures place_after { place.new ≡ place_of (award_verdict text.now (length rows.old)) }
    ensures bought_after { bought.new ≡ award_bought text.now (length rows.old) }
    ensures total_after { total.new ≡ award_total text.now (length rows.old) }
    ensures count_after { count.new ≡ award_count text.now (length rows.old) }
    ensures rows_after { rows.new ≡ award_output text.now rows.old }
{
    let answer = awardnumbers::award(text, rows);
    awarded(answer, place, bought, total, count)
}
