// The award of a text as numbers: what C gets.
#![tactic(auto)]

ghost use Rattle.std.specs.Prelude.{◌≡◌, length};
ghost use Rattle.tender.specs.FromText.{cleared_by_table};
ghost use Rattle.awardnumbers.specs.Numbers.{numbers_told, numbers_answer, numbers_output, FewRows, award_answer, award_output};

use clearing::Clearing;
use refusal::{Refusal, Rule, Verdict};

// What an award buys, its total and the number of its bids; zeros beside a refusal.
// No Result: it is the answer of an entry, and by document 01 zeros stand beside a refusal.
#[derive(Clone, Copy)]
pub struct AwardNumbers {
    pub verdict: Verdict,
    pub bought: u64,
    pub total: u64,
    pub count: u64,
}

// The three numbers of an award that was put.
#[derive(Clone, Copy)]
struct Numbers {
    bought: u64,
    total: u64,
    count: u64,
}

impl From<Result<Numbers, Refusal>> for AwardNumbers {
    ghost from_gives = { λ numbers answer. answer ≡ numbers_told numbers };

    fn from(numbers: Result<Numbers, Refusal>) -> AwardNumbers {
        match numbers {
            Ok(numbers) => AwardNumbers {
                verdict: Ok(()),
                bought: numbers.bought,
                total: numbers.total,
                count: numbers.count,
            },
            Err(refusal) => AwardNumbers {
                verdict: Err(refusal),
                bought: 0,
                total: 0,
                count: 0,
            },
        }
    }
}

// What was cleared, as numbers: refused as it was cleared, then by 10 with the bytes needed. With a refusal the list is unchanged.
#[tactic(auto, unfolding(crate::specs::Numbers::numbers_verdict, crate::specs::Numbers::numbers_output))]
fn put(cleared: Clearing, rows: &mut [u64]) -> Result<Numbers, Refusal>
    requires { FewRows cleared }
    ensures value { numbers_told result ≡ numbers_answer cleared (length rows.old) }
    ensures rows_after { rows.new ≡ numbers_output cleared rows.old }
{
    cleared.verdict?;
    let award = cleared.award;
    let count = award.count;
    Rule::OutputLength.unless(7 * count <= rows.len(), 56 * count as u64)?;
    rownumbers::put_rows(rows, award);
    Ok(Numbers {
        bought: award.bought.0,
        total: money::magnitude(award.total),
        count: count as u64,
    })
}

// The award of a text's book, sampled by the printed table.
#[tactic(auto, using(crate::proofs::Counts::few_answered))]
pub fn award(text: &[u8], rows: &mut [u64]) -> AwardNumbers
    ensures value { result ≡ award_answer text.now (length rows.old) }
    ensures rows_after { rows.new ≡ award_output text.now rows.old }
{
    put(tender::clear(text), rows).into()
}

// The award of a text's book, sampled by the table of a text.
#[tactic(auto, using(crate::proofs::Counts::few_by_table))]
pub fn award_by_table(table: &[u8], text: &[u8], rows: &mut [u64]) -> AwardNumbers
    ensures value { result ≡ numbers_answer (cleared_by_table table.now text.now) (length rows.old) }
    ensures rows_after { rows.new ≡ numbers_output (cleared_by_table table.now text.now) rows.old }
{
    put(tender::clear_by_table(table, text), rows).into()
}
