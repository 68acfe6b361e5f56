// An award written as a sheet, and a refusal as its line.
#![tactic(auto)]

ghost use Rattle.std.specs.Prelude.{◌≡◌, length};
ghost use Rattle.refusal.specs.Verdict.{Accepted};
ghost use Rattle.sheettext.specs.Sheet.{sheet_text};
ghost use Rattle.output.specs.Writing.{written_of, output_after};

// The line of a refusal.
mod refusals;

use award::Award;
use awardwriter::Layout;
use output::TextWritten;
pub use refusals::write_refusal;

// Writes the sheet of any award at the beginning of the output. With a refusal, which can be 10 alone, the output is unchanged.
pub fn write(award: Award, out: &mut [u8]) -> TextWritten
    ensures value { result ≡ written_of Accepted (sheet_text award) (length out.old) }
    ensures out_after { out.new ≡ output_after Accepted (sheet_text award) out.old }
{
    awardwriter::write(Layout::Sheet, award, out)
}
