// The numbers of a text, parsed where they stand.
#![tactic(auto)]

ghost use Rattle.std.specs.Prelude.{◌≤◌, ◌<◌, IfOk};
ghost use Rattle.forms.specs.Number as Number;
ghost use Rattle.forms.specs.Signed as Signed;
ghost use Rattle.scanner.specs.Scans.{Scans};

mod digits;

use scanner::{Reader, Stop};

// A number in decimal, from `least` on.
pub fn number(reader: &mut Reader<'_>, least: u8) -> Result<u64, Stop>
    requires { least ≤ 1 }
    ensures value_bound { IfOk result (λ n. n < 10000000000000) }
    ensures scans { Scans (Number.number least) reader.old result reader.new }
{
    let Some(mut value) = digits::first(reader, least) else {
        return Err(Stop { at: reader.at });
    };
    reader.at += 1;
    while let Some(digit) = digits::further(reader, value) {
        value = value * 10 + digit;
        reader.at += 1;
    }
    Ok(value)
}

// A number that may have `-` before it, never before 0.
pub fn signed(reader: &mut Reader<'_>) -> Result<i64, Stop>
    ensures { Scans Signed.signed reader.old result reader.new }
{
    let negative = reader.begins(b'-');
    if negative {
        reader.at += 1;
        let n = number(reader, 1)?;
        return Ok(-(n as i64));
    }
    let n = number(reader, 0)?;
    Ok(n as i64)
}
