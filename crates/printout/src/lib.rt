// What the programs print for a text. It is no entry: it answers how many bytes are to be printed and no verdict, so what has to know
// whether a text is refused calls `tender::sheet` or `tender::page`.
#![tactic(auto)]

ghost use Rattle.std.specs.Prelude.{◌≡◌, ◌≤◌, length, take};
ghost use Rattle.refusal.specs.Verdict.{Accepted};
ghost use Rattle.output.specs.Writing.{written_of, output_after};
ghost use Rattle.awardwriter.specs.Layout.{layout_text};
ghost use Rattle.tender.specs.FromText.{printed_as, clear_text};

mod by_table;

use awardwriter::Layout;
pub use by_table::print_by_table;
use clearing::Clearing;
use output::TextWritten;

// What was cleared, in a layout, or the line of the refusal.
#[tactic(auto, unfolding(tender::specs::FromText::printed_as))]
fn write(layout: Layout, cleared: Clearing, out: &mut [u8]) -> TextWritten
    ensures value { result ≡ written_of Accepted (printed_as (layout_text layout) cleared) (length out.old) }
    ensures out_after { out.new ≡ output_after Accepted (printed_as (layout_text layout) cleared) out.old }
{
    match cleared.verdict {
        Ok(()) => awardwriter::write(layout, cleared.award, out),
        Err(refusal) => sheet::write_refusal(refusal.rule, refusal.place, out),
    }
}

// Puts it at the beginning of an output that has room for it, and answers how many bytes it has.
#[tactic(auto, using(output::proofs::Answers::all_written_lem))]
fn put(layout: Layout, cleared: Clearing, out: &mut [u8]) -> usize
    requires { length (printed_as (layout_text layout) cleared) ≤ length out.old }
    ensures out_after { take result out.new ≡ printed_as (layout_text layout) cleared }
    ensures upper_bound { result ≤ length out.new }
{
    let written = write(layout, cleared, out);
    written.bytes as usize
}

// Puts what is to be printed for a text, sampled by the printed table, at the beginning of the output, and answers how many bytes it has: 600
// bytes hold it.
#[tactic(auto, using(crate::proofs::Printed::fits))]
pub fn print(layout: Layout, text: &[u8], out: &mut [u8]) -> usize
    requires { length out.old ≡ 600 }
    ensures out_after { take result out.new ≡ printed_as (layout_text layout) (clear_text text.now) }
    ensures upper_bound { result ≤ length out.new }
{
    put(layout, tender::clear(text), out)
}
