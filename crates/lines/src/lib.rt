// A line of text as data: its parts, put into a lent output by one function. A writer of texts says which parts a line has; it is measured
// by putting it into an output that is too short. A place is bounded so that no sum wraps.
#![tactic(auto)]

ghost use Rattle.std.specs.Prelude.{◌+◌, ◌^◌, ◌≤◌, ◌<◌, length};
ghost use Rattle.lists.specs.Joined.{joined};
ghost use Rattle.printer.specs.Puts.{Puts};
ghost use Rattle.lines.specs.Line.{part_text};

use columns::Shown;
use money::Cents;
use printer::Output;
use words::Word;

// A part of a line: a word, or a word and right after it a number or a price; or what is set to the right in so many columns.
#[derive(Clone, Copy)]
pub enum Part {
    Fixed(Word),
    Number(Word, u64),
    Price(Word, Cents),
    Column(u8, Shown),
}

// A part of a line, where it fits.
pub fn put_part(out: &mut Output<'_>, part: Part)
    requires { out.old.at < 2 ^ 58 }
    ensures puts { Puts out.old (part_text part) out.new }
    ensures upper_bound { out.new.at ≤ out.old.at + 500 }
{
    match part {
        Part::Fixed(word) => words::put(out, word),
        Part::Number(word, n) => {
            words::put(out, word);
            out.number(n);
        }
        Part::Price(word, cents) => {
            words::put(out, word);
            out.cents(cents);
        }
        Part::Column(width, shown) => columns::put(out, width, shown),
    }
}

// A whole line in the same way.
pub fn put(out: &mut Output<'_>, line: &[Part])
    requires place { out.old.at < 2 ^ 32 }
    requires few { length line.now ≤ 8 }
    ensures puts { Puts out.old (joined part_text line.now) out.new }
    ensures upper_bound { out.new.at ≤ out.old.at + 4000 }
{
    for part in line {
        put_part(out, *part);
    }
}
