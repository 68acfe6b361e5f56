// Numbers with one space between two of them, and a line that has them between two words. How many there are, the caller's array tells.
#![tactic(auto)]

ghost use Rattle.std.specs.Prelude.{◌≤◌};
ghost use Rattle.numberline.specs.ScansLine.{ScansNumbers, ScansLine};

use scanner::{Reader, Stop};

// N numbers, with one space between two of them. Stored by their index: of what is written through `iter_mut` a proof knows only how many
// there are.
pub fn spaced<const N: usize>(reader: &mut Reader<'_>) -> Result<[u64; N], Stop>
    requires { 1 ≤ N }
    ensures { ScansNumbers N reader.old result reader.new }
{
    let mut values = [0; N];
    values[0] = numerals::number(reader, 0)?;
    for i in 1..N {
        reader.word(b" ")?;
        values[i] = numerals::number(reader, 0)?;
    }
    Ok(values)
}

// The bytes of `start`, N numbers, and the bytes of `close`.
pub fn line<const N: usize>(
    reader: &mut Reader<'_>,
    start: &[u8],
    close: &[u8],
) -> Result<[u64; N], Stop>
    requires { 1 ≤ N }
    ensures { ScansLine start.now N close.now reader.old result reader.new }
{
    reader.word(start)?;
    let values = spaced::<N>(reader)?;
    reader.word(close)?;
    Ok(values)
}
