// Reference Tables 1 to 4, by ranges of rate / endpoint.
#![tactic(auto)]

mod tables;

ghost use Rattle.std.specs.Prelude.{◌≡◌};
ghost use Rattle.rules.specs.Rules.{by_range};
ghost use Rattle.neutral.specs.Numbered.{numbered};

use tables::{TABLE_1, TABLE_2, TABLE_3, TABLE_4};
use units::Miles;

// One of Tables 1 to 4 at a rate in thousandths of a pound per minute and an endpoint in hundred-thousandths of mg/L. No other
// number is a table's here.
pub fn read(table: u8, rate: u64, endpoint: u32) -> Option<Miles>
    ensures { result ≡ by_range (numbered table) rate endpoint }
{
    let ranges = match table {
        // Rural ground, ten minutes and sixty.
        1 => &TABLE_1,
        2 => &TABLE_2,
        // Urban ground, ten minutes and sixty.
        3 => &TABLE_3,
        4 => &TABLE_4,
        _ => return None,
    };
    Some(ranges.read(rate, endpoint))
}
