// A text written into a lent output: what the writers of texts answer.
#![tactic(auto)]

ghost use Rattle.std.specs.Prelude.{◌≡◌, ℕ, List, length};
ghost use Rattle.printer.specs.Puts.{Puts};
ghost use Rattle.output.specs.Writing.{told, written_of, output_after};

use printer::Output;
use refusal::{Refusal, Rule, Verdict};

// How many bytes were written, or 0 beside a refusal.
// No Result: it is the answer of an entry, and by document 01 zeros stand beside a refusal.
#[derive(Clone, Copy)]
pub struct TextWritten {
    pub verdict: Verdict,
    pub bytes: u64,
}

// The whole text was written, or nothing of it.
impl From<Result<usize, Refusal>> for TextWritten {
    ghost from_gives = { λ written answer. answer ≡ told written };

    fn from(written: Result<usize, Refusal>) -> TextWritten {
        match written {
            Ok(bytes) => TextWritten {
                verdict: Ok(()),
                bytes: bytes as u64,
            },
            Err(refusal) => TextWritten {
                verdict: Err(refusal),
                bytes: 0,
            },
        }
    }
}

// What can be put at the beginning of an output, as the text that it is.
pub trait Text {
    ghost text: { Self → List ℕ };

    fn put(&self, out: &mut Output<'_>)
        requires { out.old.at ≡ 0 }
        ensures { Puts out.old (text self.now) out.new };
}

// How many bytes a text has: it is put into one byte, where it does not fit.
pub fn measure<T: Text>(text: &T) -> usize
    ensures { result ≡ length (T.text text.now) }
{
    let mut nowhere = [0u8; 1];
    let mut measured = Output::new(&mut nowhere);
    text.put(&mut measured);
    measured.at
}

// Writes a text at the beginning of an output that is long enough for all of it, where nothing was refused before. With a refusal the
// output is unchanged.
#[tactic(auto, unfolding(crate::specs::Writing::writing_verdict, crate::specs::Writing::written_of, crate::specs::Writing::output_after))]
pub fn write<T: Text>(before: Verdict, text: &T, out: &mut [u8]) -> Result<usize, Refusal>
    ensures value { told result ≡ written_of before (T.text text.now) (length out.old) }
    ensures out_after { out.new ≡ output_after before (T.text text.now) out.old }
{
    before?;
    let needed = measure(text);
    Rule::OutputLength.unless(needed <= out.len(), needed as u64)?;
    text.put(&mut Output::new(out));
    Ok(needed)
}
