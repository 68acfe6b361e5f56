// An award put into an output, line by line.
ghost use Rattle.std.specs.Prelude.{◌≤◌, take};
ghost use Rattle.lists.specs.Joined.{joined};
ghost use Rattle.printer.specs.Puts.{Puts};
ghost use Rattle.awardwriter.specs.Layout.{layout_row, layout_text};

use crate::Layout;
use award::Award;
use output::Text;
use printer::Output;

// An award in a layout.
#[derive(Clone, Copy)]
pub struct LaidOut<'a> {
    pub layout: Layout,
    pub award: &'a Award,
}

impl Text for LaidOut<'_> {
    ghost text = { λ laid. layout_text laid.layout laid.award.now };

    fn put(&self, out: &mut Output<'_>) {
        lines::put(out, &self.layout.first_line(self.award));
        put_rows(out, self.layout, *self.award);
    }
}

// The award is taken by value: behind a reference a proof is not told that a record holds eight rows.
fn put_rows(out: &mut Output<'_>, layout: Layout, award: Award)
    requires { out.old.at ≤ 4000 }
    ensures { Puts out.old (joined (layout_row layout) (take award.count award.rows)) out.new }
{
    for row in award.listed() {
        lines::put(out, &layout.row_line(row));
    }
}
