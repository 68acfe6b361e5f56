// A sampling table checked by rule 12 of document 02, change 3.
#![tactic(auto)]

ghost use Rattle.std.specs.Prelude.{◌≡◌};
ghost use Rattle.sampling.specs.Entries.{table_entries};
ghost use Rattle.sampling.specs.Sampling as Sampling;
ghost use Rattle.sampling.specs.Rules.{band_keeps, bands_verdict, table_verdict};

use refusal::{Rule, Verdict};
use sampling::{Band, Table};

// Whether a band may stand after the band `before`.
#[tactic(auto, unfolding(sampling::specs::Rules::band_keeps))]
fn keeps(before: Band, b: Band) -> bool
    ensures { result ≡ band_keeps before b }
{
    before.highest < b.highest
        && b.highest <= 1_000_000
        && (1..=99_999).contains(&b.sample)
        && before.sample <= b.sample
        && b.sample <= before.highest + 1
}

// The first line whose band breaks a rule; the first band stands on line 1. A walk of its own beside that of `bookrules`: one for both
// would take the test and what it needs of the entry before as closures, and be no plainer.
fn check_bands(bands: &[Band]) -> Verdict
    ensures { result ≡ bands_verdict 1 (Sampling.band 0 0) bands.now }
{
    let mut before = Band {
        highest: 0,
        sample: 0,
    };
    for (i, band) in bands.iter().enumerate() {
        let line = i as u64 + 1;
        Rule::SamplingTable.unless(keeps(before, *band), line)?;
        before = *band;
    }
    Ok(())
}

// Accepts a record, or names the first line that breaks a rule.
#[tactic(auto, unfolding(sampling::specs::Rules::table_verdict))]
pub fn check(table: Table) -> Verdict
    ensures { result ≡ table_verdict (table_entries table) }
{
    let count = table.count;
    Rule::SamplingTable.unless(0 < count, 1)?;
    check_bands(table.listed())?;
    Rule::SamplingTable.unless(count <= 16, 17)?;
    let last = table.bands[count - 1];
    Rule::SamplingTable.unless(last.highest == 1_000_000, count as u64)
}
