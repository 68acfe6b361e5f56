// How many blanks of an awarded quantity are sampled: the sampling table as a record, and the sample of a quantity. What makes a record a
// table, rule 12 of document 02, stands in specs/; `tablerules` checks it.
#![tactic(auto)]

ghost use Rattle.std.specs.Prelude.{◌≡◌, take};
ghost use Rattle.sampling.specs.Entries.{table_entries};
ghost use Rattle.sampling.specs.Sampling.{printed_table, sample_of};

mod printed_bands;

use money::Blanks;
use printed_bands::PRINTED;

// A band of quantities, from one above the band before it (the first from 1) to its highest.
#[derive(Clone, Copy, PartialEq, Eq)]
pub struct Band {
    pub highest: u64,
    pub sample: u64,
}

// A sampling table: the first `count` of the bands; the others are ignored. A count may say that there were more bands than the record
// holds: such a table is refused. An array with a count, since nothing is allocated.
#[derive(Clone, Copy)]
pub struct Table {
    pub count: usize,
    pub bands: [Band; 16],
}

impl Table {
    // The bands that the record counts and holds.
    pub fn listed(&self) -> &[Band]
        ensures { result.now ≡ take self.now.count self.now.bands }
    {
        &self.bands[..self.count.min(16)]
    }
}

// The printed table.
#[tactic(auto, unfolding(crate::specs::Sampling::printed_bands))]
pub fn printed() -> Table
    ensures { table_entries result ≡ printed_table }
{
    Table {
        count: PRINTED.len(),
        bands: PRINTED,
    }
}

// The sample by the printed table. Quantity 0 samples 0, and so does one above 1,000,000, which lies in no band and which no award has.
pub fn sample(quantity: Blanks) -> Blanks
    ensures { result.0 ≡ sample_of printed_table quantity.0 }
{
    sample_by_table(printed(), quantity)
}

// The sample by a table: that of the band in which the quantity lies, 0 where it lies in none.
#[tactic(auto, using(crate::proofs::Scan::zero_samples), unfolding(crate::specs::Sampling::sample_of))]
pub fn sample_by_table(table: Table, quantity: Blanks) -> Blanks
    ensures { result.0 ≡ sample_of (table_entries table) quantity.0 }
{
    let q = quantity.0;
    if q == 0 {
        return Blanks(0);
    }
    match table.listed().iter().find(|band| q <= band.highest) {
        Some(band) => Blanks(band.sample),
        None => Blanks(0),
    }
}
