// The checks of a toxic card's numbers in their order: its pounds, area, wall, and temperature or concentration.
#![tactic(auto)]

ghost use Rattle.std.specs.Prelude.{◌≡◌};
ghost use Rattle.ranges.specs.Ranges.{bounds_of, BoundsLimits};

use exhibits::Toxic;
use fields::Fields;
use refusals::Refusal;
use scenario::Tenths;

// The ranges of a toxic card's numbers, in turn, and its temperature or concentration where all of them are kept to.
#[tactic(auto, using(ranges::proofs::Laws::pounds_within), unfolding(ranges::specs::Ranges::bounds_of, ranges::specs::Ranges::bad_wall))]
pub fn bounds_of(f: Fields, entry: Toxic) -> Result<Tenths, Refusal>
    ensures value { result ≡ bounds_of entry f }
    ensures bounds_limits { BoundsLimits f result }
{
    if ranges::bad_pounds(f.pounds) {
        return Err(Refusal::Quantity);
    }
    if ranges::bad_area(f.containment, f.area) {
        return Err(Refusal::Area);
    }
    if 10_000 < f.wall {
        return Err(Refusal::Wall);
    }
    let tenths = ranges::tenths_of(f);
    if ranges::bad_tenths(tenths) {
        return Err(Refusal::Temperature);
    }
    if ranges::is_out_of_range(entry) {
        return Err(Refusal::Concentration);
    }
    Ok(tenths)
}
