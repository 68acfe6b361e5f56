// What stands in columns, set to the right, put into a lent output. A place is bounded so that no sum wraps.
#![tactic(auto)]

ghost use Rattle.std.specs.Prelude.{◌≡◌, ◌+◌, ◌^◌, ◌≤◌, ◌<◌, length, replicate};
ghost use Rattle.forms.specs.Column.{right};
ghost use Rattle.printer.specs.Puts.{Puts};
ghost use Rattle.columns.specs.Shown.{shown_text};

use money::Cents;
use printer::Output;
use words::Word;

// What stands in a column: a word, a number, or money with a point and two decimals.
#[derive(Clone, Copy)]
pub enum Shown {
    InWord(Word),
    InDigits(u64),
    InMoney(Cents),
}

// A column, where it fits: what is shown, and before it the spaces that its length leaves of the width. There are none where it is as long
// as the column is wide, or longer.
pub fn put(out: &mut Output<'_>, width: u8, shown: Shown)
    requires { out.old.at < 2 ^ 59 }
    ensures puts { Puts out.old (right width (shown_text shown)) out.new }
    ensures upper_bound { out.new.at ≤ out.old.at + 500 }
{
    let spaces = usize::from(width).saturating_sub(shown_length(shown));
    put_spaces(out, spaces);
    put_shown(out, shown);
}

// What is shown is measured by putting it into an output that is too short.
// As output::measure does for a text; what is shown in a column is none.
fn shown_length(shown: Shown) -> usize
    ensures { result ≡ length (shown_text shown) }
{
    let mut nowhere = [0u8; 1];
    let mut measured = Output::new(&mut nowhere);
    put_shown(&mut measured, shown);
    measured.at
}

fn put_spaces(out: &mut Output<'_>, count: usize)
    requires place { out.old.at < 2 ^ 59 }
    requires few { count ≤ 255 }
    ensures { Puts out.old (replicate count 32) out.new }
{
    for _ in 0..count {
        words::put(out, Word::Space);
    }
}

fn put_shown(out: &mut Output<'_>, shown: Shown)
    requires { out.old.at < 2 ^ 60 }
    ensures puts { Puts out.old (shown_text shown) out.new }
    ensures upper_bound { out.new.at ≤ out.old.at + 124 }
{
    match shown {
        Shown::InWord(word) => words::put(out, word),
        Shown::InDigits(n) => out.number(n),
        Shown::InMoney(cents) => out.money(cents),
    }
}
