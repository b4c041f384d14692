// The area of the pool that a spill makes, by what holds it.
#![tactic(auto)]

ghost use Rattle.std.specs.Prelude.{◌≡◌};
ghost use Rattle.pool_area.specs.Pool.{full_area, diked_area, pool_area, beyond_dike};

use release::{Containment, Dike};
use units::{Pounds, SquareFeet};

#[tactic(auto, using(crate::proofs::Laws::full_below))]
fn full_area(quantity: Pounds, df: u8) -> u64
    ensures { result ≡ full_area quantity.0 df }
{
    let pounds = quantity.0;
    (pounds as u64) * (df as u64)
}

// What an overflowing dike's pool covers, in whole hundredths: the closed form that the law `diked_closed` has.
#[tactic(auto, using(crate::proofs::Laws::held_below, crate::proofs::Laws::full_below, crate::proofs::Laws::diked_closed))]
fn diked_area(quantity: Pounds, df: u8, dike: Dike) -> u64
    ensures { result ≡ diked_area (full_area quantity.0 df) dike.area.0 dike.wall }
{
    let full = full_area(quantity, df);
    let area = dike.area.0;
    let wall = dike.wall as u64;
    if full <= area {
        return full;
    }
    let held = 10 * (area * wall) / 33;
    if full <= held {
        return area;
    }
    if held <= area {
        return full;
    }
    area + (full - held)
}

// The area of the pool that this quantity makes.
pub fn pool_area(quantity: Pounds, df: u8, containment: Containment) -> SquareFeet
    ensures { result.0 ≡ pool_area quantity.0 df containment }
{
    match containment {
        Containment::Open => SquareFeet(full_area(quantity, df)),
        Containment::Dike(dike) => SquareFeet(diked_area(quantity, df, dike)),
        Containment::Building(shed) | Containment::ShedWithDoors(shed) => {
            SquareFeet(shed.floor.0.min(full_area(quantity, df)))
        }
    }
}

// Whether the containment is a dike that the full area goes beyond.
pub fn beyond_dike(quantity: Pounds, df: u8, containment: Containment) -> bool
    ensures { result ≡ beyond_dike quantity.0 df containment }
{
    match containment {
        Containment::Dike(dike) => dike.area.0 < full_area(quantity, df),
        Containment::Open | Containment::Building(_) | Containment::ShedWithDoors(_) => false,
    }
}
