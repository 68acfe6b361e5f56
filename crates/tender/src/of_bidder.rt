// What is answered about a named bidder of a text's book.
ghost use Rattle.std.specs.Prelude.{◌≡◌};
ghost use Rattle.tender.specs.OfBidder.{too_dear_text};

use toodear::TooDear;

// How much too dear the bidder was: refused as reading refuses the text, then by 13 where the bidder is not in the book, then by 9.
#[tactic(auto, unfolding(crate::specs::OfBidder::too_dear_text))]
pub fn too_dear(text: &[u8], bidder: u64) -> TooDear
    ensures { result ≡ too_dear_text text.now bidder }
{
    match bookreader::book_of(text) {
        Ok(book) => toodear::too_dear(book, bidder),
        Err(refusal) => TooDear::from(Err(refusal)),
    }
}
