// The line of a refusal.
ghost use Rattle.std.specs.Prelude.{◌≡◌, length, Err};
ghost use Rattle.refusal.specs.Verdict.{Accepted, Refused};
ghost use Rattle.sheettext.specs.Sheet.{refusal_text};
ghost use Rattle.output.specs.Writing.{written_of, output_after};

use output::{Text, TextWritten};
use printer::Output;
use refusal::{Refusal, Rule};

// A refusal as the line that is printed for it.
#[derive(Clone, Copy)]
struct Line(Refusal);

impl Text for Line {
    ghost text = { λ line. refusal_text (Err line.0) };

    fn put(&self, out: &mut Output<'_>) {
        lines::put(out, &sheetlines::refusal_line(Err(self.0)));
    }
}

// Writes the one line that is printed for a refusal at the beginning of the output: number and place. Rule and
// place are two parameters, as README has the entry; what it answers is about the output.
pub fn write_refusal(rule: Rule, place: u64, out: &mut [u8]) -> TextWritten
    ensures value { result ≡ written_of Accepted (refusal_text (Refused rule place)) (length out.old) }
    ensures out_after { out.new ≡ output_after Accepted (refusal_text (Refused rule place)) out.old }
{
    output::write(Ok(()), &Line(rule.at(place)), out).into()
}
