// Items one after the other, each of which begins with the same byte, as nothing after the last one does.
ghost use Rattle.scanner.specs.Items.{MayParse, GoesOn, OneOrMore};

use crate::{Reader, Stop};

// One or more of them. The function parses an item and gives the record with it.
pub fn one_or_more<R: Copy, F: Fn(&mut Reader<'_>, R) -> Result<R, Stop>>(
    reader: &mut Reader<'_>,
    first: u8,
    head: R,
    item: F,
) -> Result<R, Stop>
    requires may { MayParse F.Fn item head reader.old }
    requires goes_on { GoesOn F.Fn item }
    ensures { OneOrMore F.Fn item first head reader.old result reader.new }
{
    let mut kept = item(reader, head)?;
    while reader.begins(first) {
        kept = item(reader, kept)?;
    }
    Ok(kept)
}
