// Reference Tables 18 to 21, of likely scenarios, by rates and endpoints: one constant holds the entries in use of all four, column by
// column, so that the rows of one column are lent as they stand.
#![tactic(auto)]

mod tables;

ghost use Rattle.std.specs.Prelude.{◌≡◌, [], ◌-◌, ◌<◌, ◌≤◌, get_or};
ghost use Rattle.rules.specs.Rules.{from_column, closest_column};
ghost use Rattle.interpolation.specs.Interpolation.{likely_by_row};
ghost use Rattle.likely_dense.specs.PrintedDense.{rates18, endpoints18};
ghost use Rattle.likely_dense.specs.Columns.{dense_tables};

use interpolation::Likely;
use tables::{COLUMN_UPTO, ENTRIES, RATE};

// The column that an endpoint in hundred-thousandths of mg/L reads.
fn column_of(endpoint: u32) -> usize
    ensures value { result ≡ closest_column endpoint endpoints18 }
    ensures upper_bound { result < 16 }
{
    search::first_at_least(&COLUMN_UPTO, endpoint as u64)
}

// One of Tables 18 to 21 at a rate in thousandths of a pound per minute and an endpoint in hundred-thousandths of mg/L. They have the
// same rows and columns.
pub fn read(table: u8, rate: u64, endpoint: u32) -> Option<Likely>
    requires { (17 < table) × (table ≤ 21) }
    ensures { result ≡ likely_by_row rates18 (from_column (closest_column endpoint endpoints18) (get_or dense_tables (table - 18) [])) rate }
{
    let column = column_of(endpoint);
    interpolation::read(&RATE, &ENTRIES[table as usize - 18][column], rate)
}
