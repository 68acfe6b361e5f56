// Words, numbers and prices put into a lent output. After each the output's place is the one after what was put; where that lies past the
// output's end, nothing is stored of it. So a text is measured by putting it into an output that is too short, and no second code counts
// bytes. A place is bounded so that no sum wraps.
#![tactic(auto)]

ghost use Rattle.std.specs.Prelude.{◌≡◌, ◌+◌, ◌^◌, ◌≤◌, ◌<◌, length};
ghost use Rattle.forms.specs.Digits.{digits};
ghost use Rattle.printer.specs.Written.{Wrote, placed, Placeable};
ghost use Rattle.printer.specs.Puts.{Puts};

mod cents;

// A lent output, and the place where the next text is put.
#[derive(Drop)]
pub struct Output<'a> {
    pub bytes: &'a mut [u8],
    pub at: usize,
}

impl<'a> Output<'a> {
    // A text put into this output stands at its beginning.
    pub fn new(bytes: &'a mut [u8]) -> Output<'a>
        ensures same { result.bytes.ghost_name ≡ bytes.entry.ghost_name }
        ensures bytes { result.bytes.now ≡ bytes.entry.now }
        ensures start { result.at ≡ 0 }
    {
        Output { bytes, at: 0 }
    }

    // The bytes of w, where they fit.
    #[tactic(auto, unfolding(crate::specs::Written::placed))]
    pub fn word(&mut self, w: &[u8])
        requires { Placeable self.old.at w.now }
        ensures puts { Puts self.old w.now self.new }
        ensures out_after { self.new.bytes.now ≡ placed self.old.bytes.now self.old.at w.now }
        ensures upper_bound { self.new.at ≤ self.old.at + 32 }
    {
        let next = self.at + w.len();
        if next <= self.bytes.len() {
            lists::copy(&mut self.bytes[self.at..next], w);
        }
        self.at = next;
    }

    // The digits of n in the same way.
    pub fn number(&mut self, n: u64)
        requires { self.old.at < 2 ^ 63 }
        ensures puts { Puts self.old (digits n) self.new }
        ensures upper_bound { self.new.at ≤ self.old.at + 20 }
    {
        let next = self.at + digit_count(n);
        if next <= self.bytes.len() {
            write_digits(&mut self.bytes[self.at..], n);
        }
        self.at = next;
    }
}

// The digits of n, at the beginning of the output. It calls itself for the digits before the last. Document 01 names this form: the digit
// writer is lent the output from its place onward.
#[tactic(auto, using(forms::proofs::Digits::length_one, forms::proofs::Digits::length_more, crate::proofs::Digits::wrote_digit, crate::proofs::Digits::wrote_digits))]
fn write_digits(out: &mut [u8], n: u64) -> usize
    requires { length (digits n) ≤ length out.old }
    ensures { Wrote out.old 0 (digits n) out.new result }
{
    if n < 10 {
        out[0] = digit(n);
        1
    } else {
        let k = write_digits(out, n / 10);
        out[k] = digit(n % 10);
        k + 1
    }
}

fn digit(d: u64) -> u8
    requires { d < 10 }
    ensures { result ≡ 48 + d }
{
    b'0' + (d as u8)
}

// How many digits n has: one more than its logarithm, and one where it is 0.
#[tactic(auto, using(crate::proofs::Digits::length_log))]
fn digit_count(n: u64) -> usize
    ensures value { result ≡ length (digits n) }
    ensures upper_bound { result ≤ 20 }
{
    n.max(1).ilog10() as usize + 1
}
