// The digits of a number, one by one.
ghost use Rattle.std.specs.Prelude.{◌≡◌, ◌≤◌, drop};
ghost use Rattle.forms.specs.Tests.{is_first, goes_on};
ghost use Rattle.numerals.specs.Digits.{digit_if};

use scanner::Reader;

// The next digit, where a number that is at least `least` can begin with it.
pub fn first(reader: &Reader<'_>, least: u8) -> Option<u64>
    requires { least ≤ 1 }
    ensures { result ≡ digit_if (is_first least) (drop reader.now.at reader.now.text.now) }
{
    match reader.next_byte() {
        Some(b) if (b'0' + least..=b'9').contains(&b) => Some(u64::from(b - b'0')),
        _ => None,
    }
}

// The next digit, where it may follow the digits of v.
pub fn further(reader: &Reader<'_>, v: u64) -> Option<u64>
    ensures { result ≡ digit_if (goes_on v) (drop reader.now.at reader.now.text.now) }
{
    let after_zero = v == 0;
    let full = 1_000_000_000_000 <= v;
    match reader.next_byte() {
        Some(b) if !after_zero && !full && b.is_ascii_digit() => Some(u64::from(b - b'0')),
        _ => None,
    }
}
