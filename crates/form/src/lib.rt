// Bytes 0 to 3 of a card and the fields that must be zero with them: what kind of card they make, or that they are refused.
#![tactic(auto)]

ghost use Rattle.std.specs.Prelude.{◌≡◌};
ghost use Rattle.form.specs.Form.{state_of, ground_of, held_of, heat_fits, shaped_state, blank, shape_of};

use dispersion::Ground;
use fields::Fields;
use refusals::Refusal;
use release::{Building, Containment, Dike};
use which_table::State;

// How a toxic card's vessel stands.
#[derive(Clone, Copy)]
pub struct Standing {
    pub state: State,
    pub topography: Ground,
    pub containment: Containment,
}

// What kind of card the bytes make.
#[derive(Clone, Copy)]
pub enum Shape {
    Toxic(Standing),
    Flammable,
}

// Byte 1, if it is listed.
#[tactic(auto, unfolding(crate::specs::Form::state_of))]
fn state_of(byte: u8) -> Option<State>
    ensures { result ≡ state_of byte }
{
    match byte {
        1 => Some(State::Gas),
        2 => Some(State::Pressurized),
        3 => Some(State::Refrigerated),
        4 => Some(State::Liquid),
        5 => Some(State::Solution),
        _ => None,
    }
}

// Byte 2, if it is listed.
#[tactic(auto, unfolding(crate::specs::Form::ground_of))]
fn ground_of(byte: u8) -> Option<Ground>
    ensures { result ≡ ground_of byte }
{
    match byte {
        1 => Some(Ground::Rural),
        2 => Some(Ground::Urban),
        _ => None,
    }
}

#[tactic(auto, unfolding(crate::specs::Form::open_of))]
fn open_of(area: u32) -> Option<Containment>
    ensures { result ≡ Rattle.form.specs.Form.open_of area }
{
    if area == 0 {
        return Some(Containment::Open);
    }
    None
}

// Byte 3 with the area and the wall, if it is listed and leaves none of the two filled that it has no use for.
#[tactic(auto, unfolding(crate::specs::Form::held_of))]
fn held_of(byte: u8, area: u32, wall: u16) -> Option<Containment>
    ensures { result ≡ held_of byte area wall }
{
    let feet = release::square_feet(area);
    if byte == 1 {
        return Some(Containment::Dike(Dike { area: feet, wall }));
    }
    if wall != 0 {
        return None;
    }
    match byte {
        0 => open_of(area),
        2 => Some(Containment::Building(Building { floor: feet })),
        3 => Some(Containment::ShedWithDoors(Building { floor: feet })),
        _ => None,
    }
}

fn heat_fits(state: State, heat: u16) -> bool
    ensures { result ≡ heat_fits state heat }
{
    match state {
        State::Gas | State::Pressurized | State::Refrigerated => heat == 0,
        State::Liquid | State::Solution => true,
    }
}

// Bytes 1 to 3 of a toxic card, and the fields that must be zero with them.
fn toxic_shape(f: Fields) -> Result<Shape, Refusal>
    ensures { result ≡ shaped_state (state_of f.state) f }
{
    let Some(state) = state_of(f.state) else {
        return Err(Refusal::Form);
    };
    let Some(containment) = held_of(f.containment, f.area, f.wall) else {
        return Err(Refusal::Form);
    };
    let Some(topography) = ground_of(f.topography) else {
        return Err(Refusal::Form);
    };
    if !heat_fits(state, f.heat) {
        return Err(Refusal::Form);
    }
    Ok(Shape::Toxic(Standing {
        state,
        topography,
        containment,
    }))
}

// Whether all that a flammable card leaves blank is zero.
#[tactic(auto, unfolding(crate::specs::Form::blank))]
fn is_blank(f: Fields) -> bool
    ensures { result ≡ blank f }
{
    f.state == 0
        && f.topography == 0
        && f.containment == 0
        && f.area == 0
        && f.wall == 0
        && f.heat == 0
}

// What kind of card the bytes make.
#[tactic(auto, unfolding(crate::specs::Form::shape_of))]
pub fn shape_of(f: Fields) -> Result<Shape, Refusal>
    ensures { result ≡ shape_of f }
{
    match f.kind {
        1 => toxic_shape(f),
        2 if is_blank(f) => Ok(Shape::Flammable),
        _ => Err(Refusal::Form),
    }
}
