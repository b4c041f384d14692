// What holds a spill, release rates and durations: the functions that make and open pounds, square feet and pounds per minute.
#![tactic(auto)]

ghost use Rattle.std.specs.Prelude.{◌≡◌, ◌*◌, ◌≤◌};
ghost use Rattle.release.specs.Rates.{gas_rate, pool_rate, at_most_ten_minutes, is_building};

use units::{Pounds, PoundsPerMinute, SquareFeet};

// A dike around a vessel: the area inside it, and its wall in hundredths of a foot.
#[derive(Clone, Copy)]
pub struct Dike {
    pub area: SquareFeet,
    pub wall: u16,
}

// A building around a vessel, and its floor.
#[derive(Clone, Copy)]
pub struct Building {
    pub floor: SquareFeet,
}

// What holds a spill: nothing, a dike, a building or a shed with doors. A shed with doors, document 02's own term, is a building whose
// walls hold no vapor back.
#[derive(Clone, Copy)]
pub enum Containment {
    Open,
    Dike(Dike),
    Building(Building),
    ShedWithDoors(Building),
}

// Pounds, from a card's whole number.
pub fn pounds(whole: u32) -> Pounds
    ensures { result.0 ≡ whole }
{
    Pounds(whole)
}

// Square feet, from a card's whole number.
pub fn square_feet(whole: u32) -> SquareFeet
    ensures { result.0 ≡ 100 * whole }
{
    SquareFeet(100 * (whole as u64))
}

// A rate opened, for whoever writes or prints it.
pub fn thousandths(rate: PoundsPerMinute) -> u64
    ensures { result ≡ rate.0 }
{
    rate.0
}

// A rate that a reader supplies, in thousandths of a pound per minute.
pub fn supplied_rate(thousandths: u64) -> PoundsPerMinute
    ensures { result.0 ≡ thousandths }
{
    PoundsPerMinute(thousandths)
}

// A blast has no rate.
pub fn no_rate() -> PoundsPerMinute
    ensures { result.0 ≡ 0 }
{
    PoundsPerMinute(0)
}

// A gas leaves within ten minutes; a building holds some of it back.
pub fn gas_rate(quantity: Pounds, inside: bool) -> PoundsPerMinute
    ensures { result.0 ≡ gas_rate quantity.0 inside }
{
    let pounds = quantity.0;
    if inside {
        PoundsPerMinute(55 * (pounds as u64))
    } else {
        PoundsPerMinute(100 * (pounds as u64))
    }
}

// A pool evaporates by its area; a shed around it holds most of the vapor back. Both divisions are the paper's, halved so
// that the product fits 64 bits at document 01's limits.
pub fn pool_rate(lf: u32, tcf: u16, area: SquareFeet, shed: bool) -> PoundsPerMinute
    requires lf_bound { lf ≤ 1_000_000 }
    requires tcf_bound { tcf ≤ 1_000 }
    requires area_bound { area.0 ≤ 2_600_000_000 }
    ensures { result.0 ≡ pool_rate lf tcf area.0 shed }
{
    let size = area.0;
    let product = 7 * ((lf as u64) * (tcf as u64) * size);
    if shed {
        PoundsPerMinute((product + 499_999_999) / 500_000_000)
    } else {
        PoundsPerMinute((product + 49_999_999) / 50_000_000)
    }
}

// Whether the pool is gone within ten minutes at this rate.
pub fn at_most_ten_minutes(quantity: Pounds, rate: PoundsPerMinute) -> bool
    ensures { result ≡ at_most_ten_minutes quantity.0 rate.0 }
{
    let pounds = quantity.0;
    100 * (pounds as u64) <= rate.0
}

// Whether the containment is a building, with the factors of one.
pub fn is_building(containment: Containment) -> bool
    ensures { result ≡ is_building containment }
{
    matches!(containment, Containment::Building(_))
}
