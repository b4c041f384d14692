// Reference Tables 14 to 25, of likely scenarios: from a rate and an endpoint to a distance. Tables 14 to 21 are read in the crates
// below; Tables 22 to 25 are constants of `tables`.
#![tactic(auto)]

mod tables;

ghost use Rattle.std.specs.Prelude.{◌≡◌, ◌<◌, get_or};
ghost use Rattle.dispersion.specs.Tables.{column_of};
ghost use Rattle.dispersion.specs.declared.Ground.{Ground};
ghost use Rattle.interpolation.specs.Interpolation.{likely_at};
ghost use Rattle.likely_tables.specs.LikelyTables.{range_read, likely_reading};

use dispersion::{Ground, Lines};
use interpolation::Likely;
use tables::{TABLE_22, TABLE_23, TABLE_24, TABLE_25};
use units::{Miles, PoundsPerMinute};

// What a range answers: its entry in use, read as it stands.
fn range_read(reading: Option<Miles>) -> Option<Likely>
    ensures { result ≡ range_read reading }
{
    let distance = reading?;
    Some(interpolation::entry(dispersion::hundredths(distance)))
}

// What one of Tables 22 to 25 answers on the card's ground at a rate.
fn row_read<const ROWS: usize>(table: &Lines<ROWS>, topography: Ground, rate: u64) -> Option<Likely>
    requires { 0 < ROWS }
    ensures { result ≡ likely_at table.now.rates (λ i. get_or (column_of topography table.now.rural table.now.urban) i 0) rate }
{
    interpolation::read(&table.rates, table.column(topography), rate)
}

// What a table answers a likely scenario at a rate and an endpoint in hundred-thousandths of mg/L, on the card's ground.
pub fn read(table: u8, topography: Ground, rate: PoundsPerMinute, endpoint: u32) -> Option<Likely>
    ensures { result ≡ likely_reading table topography rate.0 endpoint }
{
    let thousandths = rate.0;
    match table {
        0..=17 => range_read(likely_neutral::read(table, thousandths, endpoint)),
        18..=21 => likely_dense::read(table, thousandths, endpoint),
        22 => row_read(&TABLE_22, topography, thousandths),
        23 => row_read(&TABLE_23, topography, thousandths),
        24 => row_read(&TABLE_24, topography, thousandths),
        25 => row_read(&TABLE_25, topography, thousandths),
        _ => None,
    }
}
