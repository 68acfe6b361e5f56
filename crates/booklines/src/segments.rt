// The segments of a bid.
ghost use Rattle.std.specs.Prelude.{◌≡◌, ◌≤◌};
ghost use Rattle.scanner.specs.Scans.{Scans, ScansAs};
ghost use Rattle.booktext.specs.BookForm as Form;
ghost use Rattle.bookrecord.specs.Adding.{with_segment, with_segments};

use book::{Bid, Segment};
use money::{Blanks, Cents, CentsPerBlank};
use scanner::{Reader, Stop};

fn segment(reader: &mut Reader<'_>) -> Result<Segment, Stop>
    ensures { Scans Form.segment reader.old result reader.new }
{
    let [start, end, unit] = numberline::line::<3>(reader, b" (seg ", b" ")?;
    let fixed = numerals::signed(reader)?;
    reader.word(b")")?;
    Ok(Segment {
        start: Blanks(start),
        end: Blanks(end),
        unit: CentsPerBlank(unit),
        fixed: Cents(fixed),
    })
}

// The bid with a segment more.
fn with_next(reader: &mut Reader<'_>, mut bid: Bid) -> Result<Bid, Stop>
    requires { bid.count ≤ reader.now.at }
    ensures { ScansAs Form.segment (with_segment bid) reader.old result reader.new }
{
    let next = segment(reader)?;
    bookrecord::add_segment(&mut bid, next);
    Ok(bid)
}

// One or more segments, added to the record of a bid that has none.
pub fn segments(reader: &mut Reader<'_>, head: Bid) -> Result<Bid, Stop>
    requires { head.count ≡ 0 }
    ensures { ScansAs Form.segments (with_segments head) reader.old result reader.new }
{
    scanner::one_or_more(reader, b' ', head, with_next)
}
