// From the fields of a card to what it means, or to the first refusal whose condition holds.
#![tactic(auto)]

ghost use Rattle.std.specs.Prelude.{◌≡◌};
ghost use Rattle.meaning.specs.Reading.{bad_number, substance_of, is_listed, toxic_meaning, flammable_of, meaning_of, MeaningLimits};

use exhibits::Toxic;
use fields::Fields;
use form::{Shape, Standing};
use refusals::Refusal;
use scenario::ToxicCard;
use units::Pounds;

// What a flammable card means.
#[derive(Clone, Copy)]
pub struct FlammableCard {
    pub cas: u32,
    pub quantity: Pounds,
}

// What a card means.
#[derive(Clone, Copy)]
pub enum Meaning {
    Toxic(ToxicCard),
    Flammable(FlammableCard),
}

#[tactic(auto, unfolding(crate::specs::Reading::bad_number))]
fn bad_number(number: u32, last: u32) -> bool
    ensures { result ≡ bad_number number last }
{
    number == 0 || number <= last
}

// What the exhibits say of a toxic card: B-3 of a solution at its concentration, else B-1 or B-2.
#[tactic(auto, unfolding(crate::specs::Reading::substance_of))]
fn substance_of(f: Fields) -> Toxic
    ensures { result ≡ substance_of f }
{
    match f.state {
        5 => solutions::solution_of(f.cas, f.heat),
        _ => exhibits::toxic_of(f.cas),
    }
}

fn is_listed(entry: Toxic) -> bool
    ensures { result ≡ is_listed entry }
{
    !matches!(entry, Toxic::NotListed)
}

// A toxic card's meaning: its substance is listed and its numbers are in range.
#[tactic(auto, unfolding(crate::specs::Reading::toxic_meaning))]
pub fn toxic_meaning(f: Fields, standing: Standing) -> Result<Meaning, Refusal>
    ensures value { result ≡ toxic_meaning (substance_of f) f standing }
    ensures meaning_limits { MeaningLimits result }
{
    let entry = substance_of(f);
    if !is_listed(entry) {
        return Err(Refusal::Unlisted);
    }
    let tenths = bounds::bounds_of(f, entry)?;
    Ok(Meaning::Toxic(ToxicCard {
        cas: f.cas,
        entry,
        state: standing.state,
        topography: standing.topography,
        quantity: release::pounds(f.pounds),
        tenths,
        containment: standing.containment,
    }))
}

// A flammable card's meaning.
#[tactic(auto, unfolding(crate::specs::Reading::flammable_of))]
fn flammable_meaning(f: Fields) -> Result<Meaning, Refusal>
    ensures value { result ≡ flammable_of f }
    ensures meaning_limits { MeaningLimits result }
{
    if !combustion::is_flammable(f.cas) {
        return Err(Refusal::Unlisted);
    }
    if ranges::bad_pounds(f.pounds) {
        return Err(Refusal::Quantity);
    }
    Ok(Meaning::Flammable(FlammableCard {
        cas: f.cas,
        quantity: release::pounds(f.pounds),
    }))
}

// What a card means after the last card's number, or the first refusal whose condition holds.
#[tactic(auto, unfolding(crate::specs::Reading::meaning_of))]
pub fn meaning_of(f: Fields, last: u32) -> Result<Meaning, Refusal>
    ensures value { result ≡ meaning_of f last }
    ensures meaning_limits { MeaningLimits result }
{
    if bad_number(f.number, last) {
        return Err(Refusal::Number);
    }
    match form::shape_of(f)? {
        Shape::Toxic(standing) => toxic_meaning(f, standing),
        Shape::Flammable => flammable_meaning(f),
    }
}
