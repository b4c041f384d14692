// The answer of one card, from its bytes: read, planned, and read off a table; or a blast by its equation.
#![tactic(auto)]

ghost use Rattle.std.specs.Prelude.{◌≡◌};
ghost use Rattle.scenario.specs.Plan.{Limits, plan_of};
ghost use Rattle.card.specs.Stock.{stock_of, StockLimits};
ghost use Rattle.card.specs.Answers.{read_toxic, planned_answer, blast_answer, answer_of};
ghost use Rattle.blast.specs.Blast.{ring_of};
ghost use Rattle.dispersion.specs.Tables.{reading_of};

use meaning::{FlammableCard, Meaning};
use refusals::Refusal;
use scenario::{Scenario, ToxicCard};
use seasons::Season;
use units::{Miles, PoundsPerMinute};

// The two classes of which a register tells the farthest card: kinds 1 and 2.
#[derive(Clone, Copy)]
pub enum Class {
    Toxic,
    Flammable,
}

// A card in meaning: what it says of its vessel, and the season in which it is in force.
#[derive(Clone, Copy)]
pub struct Stock {
    pub meaning: Meaning,
    pub season: Season,
}

// What the register answers for a card, and when that is in force.
#[derive(Clone, Copy)]
pub struct Answer {
    pub number: u32,
    pub class: Class,
    pub route: u8,
    pub table: u8,
    pub rate: PoundsPerMinute,
    pub distance: Miles,
    pub season: Season,
}

// A toxic scenario, read off its table.
fn toxic_read(
    number: u32,
    season: Season,
    card: ToxicCard,
    scenario: Scenario,
) -> Result<Answer, Refusal>
    ensures { result ≡ read_toxic (reading_of scenario.table card.topography scenario.rate.0 scenario.endpoint) number season scenario }
{
    let reading = dispersion::read(
        scenario.table,
        card.topography,
        scenario.rate,
        scenario.endpoint,
    );
    let Some(distance) = reading else {
        return Err(Refusal::Beyond);
    };
    Ok(Answer {
        number,
        class: Class::Toxic,
        route: scenario.route,
        table: scenario.table,
        rate: scenario.rate,
        distance,
        season,
    })
}

// A toxic card: planned, then read.
fn toxic_answer(number: u32, season: Season, card: ToxicCard) -> Result<Answer, Refusal>
    requires { Limits card }
    ensures { result ≡ planned_answer (plan_of card) number season card }
{
    let Some(scenario) = scenario::plan(card) else {
        return Err(Refusal::Mismatch);
    };
    toxic_read(number, season, card, scenario)
}

// A flammable card: a blast, by the equation. No table is read, which number 0 tells.
fn flammable_answer(number: u32, season: Season, card: FlammableCard) -> Answer
    ensures { result ≡ blast_answer (ring_of card.cas card.quantity.0) number season }
{
    Answer {
        number,
        class: Class::Flammable,
        route: 3,
        table: 0,
        rate: release::no_rate(),
        distance: blast::ring(card.cas, card.quantity),
        season,
    }
}

// A card's meaning after the last card's number, or the first refusal whose condition holds: 21 comes behind all that is asked of the
// other bytes.
#[tactic(auto, unfolding(crate::specs::Stock::stock_of))]
fn stock_of(card: &[u8], last: u32) -> Result<Stock, Refusal>
    ensures value { result ≡ stock_of card.now last }
    ensures stock_limits { StockLimits result }
{
    let meaning = meaning::meaning_of(fields::fields_of(card), last)?;
    let season = seasons::season_of(card);
    if seasons::bad_season(season) {
        return Err(Refusal::Day);
    }
    Ok(Stock { meaning, season })
}

// The answer of a card's bytes, after the last card's number. Bytes past the end of a short card read as zero.
#[tactic(auto, unfolding(crate::specs::Answers::answer_of))]
pub fn answer_of(card: &[u8], last: u32) -> Result<Answer, Refusal>
    ensures { result ≡ answer_of card.now last }
{
    let stock = stock_of(card, last)?;
    let number = fields::fields_of(card).number;
    match stock.meaning {
        Meaning::Toxic(toxic) => toxic_answer(number, stock.season, toxic),
        Meaning::Flammable(flammable) => Ok(flammable_answer(number, stock.season, flammable)),
    }
}
