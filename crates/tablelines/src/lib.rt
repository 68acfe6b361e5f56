// The lines of a sampling table, parsed into a record.
#![tactic(auto)]

ghost use Rattle.std.specs.Prelude.{◌≡◌, ◌<◌, ◌≤◌};
ghost use Rattle.scanner.specs.Scans.{Scans, ScansAs};
ghost use Rattle.tabletext.specs.Record.{empty_table, table_record};
ghost use Rattle.tabletext.specs.TableForm as Form;
ghost use Rattle.tablelines.specs.Adding.{with_band};

use sampling::{Band, Table};
use scanner::{Reader, Stop};

// All zeros.
pub fn empty_table() -> Table
    ensures { result ≡ empty_table }
{
    let band = Band {
        highest: 0,
        sample: 0,
    };
    Table {
        count: 0,
        bands: [band; 16],
    }
}

// Where the array is full the band is counted and not stored.
fn add_band(table: &mut Table, band: Band)
    requires { table.now.count < 18446744073709551615 }
    ensures { table.new ≡ with_band table.old band }
{
    lists::add(&mut table.bands, &mut table.count, band);
}

fn band(reader: &mut Reader<'_>) -> Result<Band, Stop>
    ensures { Scans Form.band_line reader.old result reader.new }
{
    let [highest, sample] = numberline::line::<2>(reader, b"(band ", b")\n")?;
    Ok(Band { highest, sample })
}

// The table with a band more.
fn with_next(reader: &mut Reader<'_>, mut table: Table) -> Result<Table, Stop>
    requires { table.count ≤ reader.now.at }
    ensures { ScansAs Form.band_line (with_band table) reader.old result reader.new }
{
    let next = band(reader)?;
    add_band(&mut table, next);
    Ok(table)
}

// One or more bands, added to the record of none.
pub fn lines(reader: &mut Reader<'_>) -> Result<Table, Stop>
    ensures { ScansAs Form.table table_record reader.old result reader.new }
{
    scanner::one_or_more(reader, b'(', empty_table(), with_next)
}
