// The ranges of a card's numbers, each by itself: its pounds, area, wall, and temperature or concentration.
#![tactic(auto)]

ghost use Rattle.std.specs.Prelude.{◌≡◌};
ghost use Rattle.ranges.specs.Ranges.{bad_pounds, bad_area, bad_heat, signed, tenths_of, bad_tenths, is_out_of_range};

use exhibits::Toxic;
use fields::Fields;
use scenario::Tenths;

// Of a flammable card the pounds are the one number that has a range.
#[tactic(auto, unfolding(crate::specs::Ranges::bad_pounds))]
pub fn bad_pounds(pounds: u32) -> bool
    ensures { result ≡ bad_pounds pounds }
{
    !(1..=10_000_000).contains(&pounds)
}

#[tactic(auto, unfolding(crate::specs::Ranges::bad_area))]
pub fn bad_area(containment: u8, area: u32) -> bool
    ensures { result ≡ bad_area containment area }
{
    containment != 0 && !(1..=1_000_000).contains(&area)
}

#[tactic(auto, unfolding(crate::specs::Ranges::bad_heat))]
fn bad_heat(tenths: i16) -> bool
    ensures { result ≡ bad_heat tenths }
{
    !(-500..=3000).contains(&tenths)
}

// Two's complement.
#[tactic(auto, unfolding(crate::specs::Ranges::signed))]
fn to_signed(heat: u16) -> i16
    ensures { result ≡ signed heat }
{
    heat.cast_signed()
}

// What bytes 18 and 19 are: in state 5 a concentration, else a temperature.
#[tactic(auto, unfolding(crate::specs::Ranges::tenths_of))]
pub fn tenths_of(f: Fields) -> Tenths
    ensures { result ≡ tenths_of f }
{
    match f.state {
        5 => Tenths::Concentration(f.heat),
        _ => Tenths::Temperature(to_signed(f.heat)),
    }
}

pub fn bad_tenths(tenths: Tenths) -> bool
    ensures { result ≡ bad_tenths tenths }
{
    match tenths {
        Tenths::Temperature(degrees) => bad_heat(degrees),
        Tenths::Concentration(_) => false,
    }
}

pub fn is_out_of_range(entry: Toxic) -> bool
    ensures { result ≡ is_out_of_range entry }
{
    matches!(entry, Toxic::OutOfRange)
}
