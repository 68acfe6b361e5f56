// Numbers that stand in bytes.
ghost use Rattle.std.specs.Prelude.{◌<◌};

// The words before the first `:`, as numbers, each at its place: in a row of 27, and after a line end in the next. In a word a byte that is
// no digit sets the number to 0 again, a `-` to a negative one.
#[derive(Clone, Copy)]
pub struct Numbers {
    pub all: [u64; 270],
    pub last: usize,
    ghost placed: { last < 270 },
}

// A negative number is kept as its magnitude and this.
pub const NEGATIVE: u64 = 9_223_372_036_854_775_808;

impl Numbers {
    pub fn of(bytes: &[u8]) -> Numbers {
        let mut numbers = Numbers {
            all: [0; 270],
            last: 0,
        };
        for b in bytes.split(|b| *b == b':').next().unwrap_or(&[]) {
            numbers.take(*b);
        }
        numbers
    }

    // A byte more.
    fn take(&mut self, byte: u8) {
        let place = match byte {
            b' ' => (self.last + 1) % 270,
            b'\n' => (self.last / 27 + 1) % 10 * 27,
            _ => self.last,
        };
        self.all[place] = with(self.all[place], byte);
        self.last = place;
    }

    // The numbers after the first word, up to the last.
    pub fn quantities(&self) -> &[u64] {
        let all = &self.all[..];
        &all[1..self.last + 1]
    }
}

// A number and a byte after it, as far as 2^64 - 1.
fn with(number: u64, byte: u8) -> u64 {
    match byte {
        b'-' => NEGATIVE,
        b'0'..=b'9' => {
            let tens = number % NEGATIVE % 1_844_674_407_370_955_162 * 10;
            number & NEGATIVE | tens.wrapping_add(u64::from(byte - b'0'))
        }
        _ => 0,
    }
}
