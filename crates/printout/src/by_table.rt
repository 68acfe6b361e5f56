// What the programs print for a text that is sampled by a table which comes as text.
ghost use Rattle.std.specs.Prelude.{◌≡◌, ◌≤◌, length, take};
ghost use Rattle.awardwriter.specs.Layout.{layout_text};
ghost use Rattle.tender.specs.FromText.{cleared_by_table, printed_as};

use crate::put;
use awardwriter::Layout;

// Puts it at the beginning of the output, as `print` does.
#[tactic(auto, using(crate::proofs::Printed::fits_by_table))]
pub fn print_by_table(layout: Layout, table: &[u8], text: &[u8], out: &mut [u8]) -> usize
    requires { length out.old ≡ 600 }
    ensures out_after { take result out.new ≡ printed_as (layout_text layout) (cleared_by_table table.now text.now) }
    ensures upper_bound { result ≤ length out.new }
{
    put(layout, tender::clear_by_table(table, text), out)
}
