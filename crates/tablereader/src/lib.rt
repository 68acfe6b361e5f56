// Reading a sampling table from its text.
#![tactic(auto)]

ghost use Rattle.std.specs.Prelude.{◌≡◌};
ghost use Rattle.tablereader.specs.Reading.{read_table_of, table_of_text, table_told};

use refusal::{Refusal, Rule, Verdict};
use sampling::Table;
use scanner::Reader;

// The table of a text, or all zeros beside a refusal.
// No Result: it is the answer of an entry, and by document 01 zeros stand beside a refusal.
#[derive(Clone, Copy)]
pub struct TableRead {
    pub verdict: Verdict,
    pub table: Table,
}

// Beside a refusal the table is all zeros.
impl From<Result<Table, Refusal>> for TableRead {
    ghost from_gives = { λ read answer. answer ≡ table_told read };

    fn from(read: Result<Table, Refusal>) -> TableRead {
        match read {
            Ok(table) => TableRead {
                verdict: Ok(()),
                table,
            },
            Err(refusal) => TableRead {
                verdict: Err(refusal),
                table: tablelines::empty_table(),
            },
        }
    }
}

// The table of a text, or why it is refused. The whole text is parsed before rule 12 is looked at. One function for this and
// bookreader::book_of would take the lines and the rules with contracts of their own, and is no plainer; they share their laws
// (textreading/proofs/Parsed).
pub fn table_of(text: &[u8]) -> Result<Table, Refusal>
    ensures { result ≡ table_of_text text.now }
{
    let fits = text.len() <= 4_096;
    Rule::TextLength.unless(fits, 4_096)?;
    let mut reader = Reader::new(text);
    let table = tablelines::lines(&mut reader)?;
    let ended = reader.at == text.len();
    Rule::Shape.unless(ended, reader.at as u64)?;
    tablerules::check(table)?;
    Ok(table)
}

// Reads a table from any bytes.
#[tactic(auto, using(crate::proofs::Answers::told_back))]
pub fn read(text: &[u8]) -> TableRead
    ensures { result ≡ read_table_of text.now }
{
    TableRead::from(table_of(text))
}
