// The lines of an award in a layout, as data: which parts each has.
ghost use Rattle.std.specs.Prelude.{◌≡◌};
ghost use Rattle.lists.specs.Joined.{joined};
ghost use Rattle.lines.specs.Line.{part_text};
ghost use Rattle.awardwriter.specs.Layout.{layout_first, layout_row};

use crate::Layout;
use award::{Award, Row};
use lines::Part;

impl Layout {
    // Demand, what is bought, and total price.
    pub(crate) fn first_line(self, award: &Award) -> [Part; 4]
        ensures { joined part_text result ≡ layout_first self award.now }
    {
        match self {
            Layout::Sheet => sheetlines::first_line(award),
            Layout::Page => pagelines::first_line(award),
        }
    }

    // The line of a bid.
    pub(crate) fn row_line(self, row: &Row) -> [Part; 7]
        ensures { joined part_text result ≡ layout_row self row.now }
    {
        match self {
            Layout::Sheet => sheetlines::row_line(row),
            Layout::Page => pagelines::row_line(row),
        }
    }
}
