// Reference Tables 5 to 8, by rates and endpoints: one constant holds the entries in use of all four, row by row.
#![tactic(auto)]

mod tables;

ghost use Rattle.std.specs.Prelude.{◌≡◌, [], ◌-◌, ◌<◌, ◌≤◌, get_or};
ghost use Rattle.rules.specs.Rules.{by_row, from_column, closest_column};
ghost use Rattle.dense.specs.PrintedDense.{rates5, endpoints5};
ghost use Rattle.dense.specs.Grids.{dense_tables};

use tables::{COLUMN_UPTO, ENTRIES, LAST_ROW, ROW_UPTO};
use units::Miles;

// One of Tables 5 to 8 at a rate in thousandths of a pound per minute and an endpoint in hundred-thousandths of mg/L. They have
// the same rows and columns.
#[tactic(auto, using(search::specs::Laws::first_within))]
pub fn read(table: u8, rate: u64, endpoint: u32) -> Option<Miles>
    requires { (4 < table) × (table ≤ 8) }
    ensures { result ≡ by_row rates5 (from_column (closest_column endpoint endpoints5) (get_or dense_tables (table - 5) [])) rate }
{
    let place = rules::settle(&ROW_UPTO, &COLUMN_UPTO, rate, endpoint as u64);
    let entry = ENTRIES[table as usize - 5][place.row][place.column];
    rules::answer(LAST_ROW, rate, entry)
}
