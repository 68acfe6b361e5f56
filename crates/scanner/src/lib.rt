// The words of a text, parsed where they stand: nothing of the text is copied.
#![tactic(auto)]

ghost use Rattle.std.specs.Prelude.{◌≡◌, ◌≤◌, length, drop};
ghost use Rattle.forms.specs.Tests.{starts_with};
ghost use Rattle.forms.specs.Word as Word;
ghost use Rattle.refusal.specs.declared.Rule.TheVariants.{Shape};

mod items;

pub use items::one_or_more;
use refusal::{Refusal, Rule};

// Where parsing stopped: the place of the first byte from which on no text of the form goes on as this one does.
#[derive(Clone, Copy, PartialEq, Eq)]
pub struct Stop {
    pub at: usize,
}

// A text in which parsing stopped is not of the shape.
impl From<Stop> for Refusal {
    ghost from_gives = { λ stop refusal. refusal ≡ record { rule = Shape; place = stop.at } };

    fn from(stop: Stop) -> Refusal {
        Rule::Shape.at(stop.at as u64)
    }
}

// The text that is being parsed, and the place of its next byte: after a Stop the place where parsing stopped, and it is not parsed on. A slice
// and a place, as document 01 has it.
#[derive(Drop)]
pub struct Reader<'a> {
    pub text: &'a [u8],
    pub at: usize,
    ghost inside: { at ≤ length text.now },
}

impl<'a> Reader<'a> {
    ghost use Rattle.scanner.specs.Scans.{first_of, Scans};

    // Of the very text that is lent, at its first byte.
    pub fn new(text: &'a [u8]) -> Reader<'a>
        ensures lent { result.text ≡ text.entry }
        ensures text { result.text.now ≡ text.entry.now }
        ensures start { result.at ≡ 0 }
    {
        Reader { text, at: 0 }
    }

    pub fn next_byte(&self) -> Option<u8>
        ensures { result ≡ first_of (drop self.now.at self.now.text.now) }
    {
        self.text[self.at..].first().copied()
    }

    // Whether the text goes on with the byte b.
    pub fn begins(&self, b: u8) -> bool
        ensures { result ≡ starts_with b (drop self.now.at self.now.text.now) }
    {
        let next = self.next_byte();
        next == Some(b)
    }

    // The bytes of w.
    pub fn word(&mut self, w: &[u8]) -> Result<(), Stop>
        ensures { Scans (Word.word w.now) self.old result self.new }
    {
        for b in w {
            if !self.begins(*b) {
                return Err(Stop { at: self.at });
            }
            self.at += 1;
        }
        Ok(())
    }
}
