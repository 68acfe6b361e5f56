// The entries for C about a named bidder.
ghost use Rattle.std.specs.Prelude.{◌≡◌};
ghost use Rattle.refusal.specs.Number.{number_of, place_of};
ghost use Rattle.toodear.specs.TooDear.{is_amount, amount_of};
ghost use Rattle.tender.specs.OfBidder.{too_dear_text};

use crate::refused;
use money::CentsPerBlank;

// A discount as C has it: 1 and the amount, or 0 and 0.
fn discount_numbers(discount: Option<CentsPerBlank>) -> (u64, u64)
    ensures { result ≡ (is_amount discount, amount_of discount) }
{
    match discount {
        Some(cents) => (1, cents.0),
        None => (0, 0),
    }
}

// How much too dear the bidder was: 1 and the smallest discount that wins it a blank, or 0 and 0 for `none`.
#[unsafe(no_mangle)]
pub extern "C" fn boccelarch_too_dear(
    text: &[u8],
    bidder: u64,
    place: &mut u64,
    found: &mut u64,
    cents: &mut u64,
) -> u64
    ensures value { result ≡ number_of (too_dear_text text.now bidder).verdict }
    ensures place_after { place.new ≡ place_of (too_dear_text text.now bidder).verdict }
    ensures found_after { found.new ≡ is_amount (too_dear_text text.now bidder).discount }
    ensures cents_after { cents.new ≡ amount_of (too_dear_text text.now bidder).discount }
{
    let answer = tender::too_dear(text, bidder);
    let (is_amount, amount) = discount_numbers(answer.discount);
    *found = is_amount;
    *cents = amount;
    refused(answer.verdict, place)
}
