// Standard input: cases, which begin after a byte `%`, each a line and the bytes after it.
ghost use Rattle.std.specs.Prelude.{◌<◌};

use crate::numbers::Numbers;

// What stands in the input from a case on.
#[derive(Clone, Copy)]
pub struct Case<'a> {
    pub rest: &'a [u8],
}

// What a line asks, by its first byte, the bytes that it is about, and the numbers of the line.
#[derive(Clone, Copy)]
pub struct Question<'a> {
    pub kind: u8,
    pub body: &'a [u8],
    pub numbers: &'a Numbers,
}

impl<'a> Case<'a> {
    // The first byte, 0 where there is none.
    pub fn kind(self) -> u8 {
        self.rest.first().copied().unwrap_or(0)
    }

    // The line, without its end.
    pub fn line(self) -> &'a [u8] {
        self.rest.split(|b| *b == b'\n').next().unwrap_or(&[])
    }

    // The bytes after it, as far as the next `%`.
    pub fn body(self) -> &'a [u8] {
        let mut parts = self.rest.splitn(2, |b| *b == b'\n');
        let after = parts.nth(1).unwrap_or(&[]);
        after.split(|b| *b == b'%').next().unwrap_or(&[])
    }
}

impl Question<'_> {
    // The first number, of an output's length.
    pub fn size(&self) -> usize
        ensures { result < 600 }
    {
        (self.numbers.all[1] % 600) as usize
    }
}
