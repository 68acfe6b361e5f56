// The award of a text.
ghost use Rattle.std.specs.Prelude.{◌≡◌};
ghost use Rattle.sampling.specs.Entries.{table_entries};
ghost use Rattle.tender.specs.FromText.{clear_text_sampled, clear_text};

use clearing::Clearing;
use sampling::Table;

// The award of a text's book, sampled by a table. It is no entry: it does not look whether the table passes.
#[tactic(auto, unfolding(crate::specs::FromText::clear_text_sampled))]
pub fn clear_sampled(table: Table, text: &[u8]) -> Clearing
    ensures { result ≡ clear_text_sampled (table_entries table) text.now }
{
    match bookreader::book_of(text) {
        Ok(book) => clearing::clear_sampled(table, book),
        Err(refusal) => Clearing::from(Err(refusal)),
    }
}

// The award of a text's book, sampled by the printed table.
pub fn clear(text: &[u8]) -> Clearing
    ensures { result ≡ clear_text text.now }
{
    clear_sampled(sampling::printed(), text)
}
