// Reference Tables 14 to 17, of likely scenarios, by ranges of rate / endpoint.
#![tactic(auto)]

mod tables;

ghost use Rattle.std.specs.Prelude.{◌≡◌};
ghost use Rattle.rules.specs.Rules.{by_range};
ghost use Rattle.likely_neutral.specs.Numbered.{numbered};

use tables::{TABLE_14, TABLE_15, TABLE_16, TABLE_17};
use units::Miles;

// One of Tables 14 to 17 at a rate in thousandths of a pound per minute and an endpoint in hundred-thousandths of mg/L. No other
// number is a table's here.
pub fn read(table: u8, rate: u64, endpoint: u32) -> Option<Miles>
    ensures { result ≡ by_range (numbered table) rate endpoint }
{
    let ranges = match table {
        // Rural ground, ten minutes and sixty.
        14 => &TABLE_14,
        15 => &TABLE_15,
        // Urban ground, ten minutes and sixty.
        16 => &TABLE_16,
        17 => &TABLE_17,
        _ => return None,
    };
    Some(ranges.read(rate, endpoint))
}
