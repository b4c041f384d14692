// A likely scenario beside the worst: the table and the distance of a toxic card at a rate and a duration that the reader supplies.
#![tactic(auto)]

ghost use Rattle.std.specs.Prelude.{◌≡◌, Ok};
ghost use Rattle.exhibits.specs.Exhibits.{alternative_plume};
ghost use Rattle.scenario.specs.Plan.{Limits, plan_of};
ghost use Rattle.meaning.specs.Reading.{MeaningLimits};
ghost use Rattle.likely_scenario.specs.LikelyScenario.{bad_rate, likely_table, planned_likely, meant_likely, card_likely, likely_of};

use exhibits::{Plume, Toxic};
use form::Shape;
use interpolation::Likely;
use meaning::Meaning;
use refusals::Refusal;
use scenario::ToxicCard;
use units::PoundsPerMinute;

// A likely scenario: the reference table that serves it, and its distance.
#[derive(Clone, Copy)]
pub struct LikelyScenario {
    pub table: u8,
    pub distance: Likely,
}

// What a supplied rate may be at most, in thousandths of a pound per minute.
const LARGEST_RATE: u64 = 1_000_000_000;

// The tables of likely scenarios stand in the order of those of worst cases, thirteen above them.
const ABOVE_WORST_CASE: u8 = 13;

#[tactic(auto, unfolding(crate::specs::LikelyScenario::bad_rate))]
fn bad_rate(rate: u64) -> bool
    ensures { result ≡ bad_rate rate }
{
    !(1..=LARGEST_RATE).contains(&rate)
}

// The plume of the alternative case: a gas has the one of B-1, a liquid or a solution that of its alternative-case column.
fn alternative_plume(entry: Toxic) -> Plume
    ensures { result ≡ alternative_plume entry }
{
    match entry {
        Toxic::OfGas(gas) => gas.plume,
        Toxic::OfLiquid(liquid) => liquid.alternative,
        Toxic::OfSolution(solution) => solution.alternative,
        Toxic::OutOfRange | Toxic::NotListed => Plume::Neutral,
    }
}

// The table of a card, by the supplied minutes.
#[tactic(auto, using(which_table::specs::Laws::table_within), unfolding(crate::specs::LikelyScenario::likely_table))]
fn likely_table(card: ToxicCard, minutes: u32) -> u8
    ensures { result ≡ likely_table card minutes }
{
    let plume = alternative_plume(card.entry);
    let worst = which_table::table(card.cas, card.state, plume, card.topography, minutes <= 10);
    ABOVE_WORST_CASE + worst
}

// A toxic card that has been read: its worst case has to have a scenario, whose endpoint is this one's.
fn planned_likely(
    card: ToxicCard,
    rate: PoundsPerMinute,
    minutes: u32,
) -> Result<LikelyScenario, Refusal>
    requires { Limits card }
    ensures { result ≡ planned_likely (plan_of card) card rate.0 minutes }
{
    let worst = scenario::plan(card).ok_or(Refusal::Mismatch)?;
    let table = likely_table(card, minutes);
    let found = likely_tables::read(table, card.topography, rate, worst.endpoint);
    let distance = found.ok_or(Refusal::Beyond)?;
    Ok(LikelyScenario { table, distance })
}

// A card's meaning; a flammable card has no likely scenario.
fn meant_likely(
    found: Meaning,
    rate: PoundsPerMinute,
    minutes: u32,
) -> Result<LikelyScenario, Refusal>
    requires { MeaningLimits (Ok found) }
    ensures { result ≡ meant_likely (Ok found) rate.0 minutes }
{
    match found {
        Meaning::Toxic(card) => planned_likely(card, rate, minutes),
        Meaning::Flammable(_) => Err(Refusal::Form),
    }
}

// A card, once the rate and the minutes are found sound.
fn of_card(card: &[u8], rate: u64, minutes: u32) -> Result<LikelyScenario, Refusal>
    ensures { result ≡ card_likely card.now rate minutes }
{
    let f = fields::fields_of(card);
    match form::shape_of(f)? {
        Shape::Toxic(standing) => {
            let found = meaning::toxic_meaning(f, standing)?;
            meant_likely(found, release::supplied_rate(rate), minutes)
        }
        Shape::Flammable => Err(Refusal::Form),
    }
}

// The likely scenario of a card's 24 bytes at a supplied rate, in thousandths of a pound per minute, and a supplied duration.
#[tactic(auto, unfolding(crate::specs::LikelyScenario::likely_of))]
pub fn likely_of(card: &[u8; 24], rate: u64, minutes: u32) -> Result<LikelyScenario, Refusal>
    ensures { result ≡ likely_of card.now rate minutes }
{
    if bad_rate(rate) {
        return Err(Refusal::SuppliedRate);
    }
    if minutes == 0 {
        return Err(Refusal::SuppliedDuration);
    }
    of_card(card, rate, minutes)
}
