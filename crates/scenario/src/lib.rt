// Route and rate of a toxic card, with its table: what the guidance does between a card's meaning and the tables.
#![tactic(auto)]

ghost use Rattle.std.specs.Prelude.{◌≡◌, ◌≤◌};
ghost use Rattle.exhibits.specs.Laws.{Within};
ghost use Rattle.scenario.specs.Plan.{vapor_of, pool_of, undiked, gas_plan, column_in, liquid_plan, solution_plan, plan_of, Limits};

use dispersion::Ground;
use exhibits::{Gas, Liquid, Plume, Solution, Toxic};
use factors::Column;
use release::Containment;
use units::{Pounds, PoundsPerMinute};
use which_table::State;

// What bytes 18 and 19 of a card say, and which of the two it is: signed tenths of a degree Celsius, or a solution's tenths of a
// percent by weight.
#[derive(Clone, Copy)]
pub enum Tenths {
    Temperature(i16),
    Concentration(u16),
}

// What a toxic card means, once it has been read.
#[derive(Clone, Copy)]
pub struct ToxicCard {
    pub cas: u32,
    pub entry: Toxic,
    pub state: State,
    pub topography: Ground,
    pub quantity: Pounds,
    pub tenths: Tenths,
    pub containment: Containment,
}

// A release: its route, the reference table that serves it, its rate, and the endpoint that the table is read at.
#[derive(Clone, Copy)]
pub struct Scenario {
    pub route: u8,
    pub table: u8,
    pub rate: PoundsPerMinute,
    pub endpoint: u32,
}

// A toxic card whose pounds keep document 01's limit, by which a pool's area and rate fit their types.
#[derive(Clone, Copy)]
struct Limited {
    card: ToxicCard,
    ghost quantity_bound: { card.quantity.0 ≤ 10_000_000 },
}

// Route 1: the whole quantity as a gas over ten minutes.
#[tactic(auto, unfolding(crate::specs::Plan::vapor_of))]
fn vapor(card: ToxicCard, endpoint: u32, plume: Plume) -> Scenario
    ensures { result ≡ vapor_of card endpoint plume }
{
    let inside = release::is_building(card.containment);
    Scenario {
        route: 1,
        table: which_table::table(card.cas, card.state, plume, card.topography, true),
        rate: release::gas_rate(card.quantity, inside),
        endpoint,
    }
}

// What the exhibits give a pool.
#[derive(Clone, Copy)]
struct Source {
    df: u8,
    lf: u32,
    tcf: u16,
    shed: bool,
    endpoint: u32,
    plume: Plume,
    ghost df_bound: { df ≤ 200 },
    ghost lf_bound: { lf ≤ 1_000_000 },
    ghost tcf_bound: { tcf ≤ 1_000 },
}

// Route 2: a pool that evaporates, and the table of its duration.
#[tactic(auto, using(pool_area::proofs::Laws::area_limit), unfolding(crate::specs::Plan::pool_of))]
fn pool(limited: Limited, source: Source) -> Scenario
    ensures { result ≡ pool_of limited.card source.df source.lf source.tcf source.shed source.endpoint source.plume }
{
    let card = limited.card;
    let area = pool_area::pool_area(card.quantity, source.df, card.containment);
    let rate = release::pool_rate(source.lf, source.tcf, area, source.shed);
    let ten = release::at_most_ten_minutes(card.quantity, rate);
    Scenario {
        route: 2,
        table: which_table::table(card.cas, card.state, source.plume, card.topography, ten),
        rate,
        endpoint: source.endpoint,
    }
}

// Route 1 of a gas that stands under its own pressure, which no dike holds.
fn freed(card: ToxicCard, gas: Gas) -> Option<Scenario>
    ensures { result ≡ undiked card.containment (vapor_of card gas.endpoint gas.plume) }
{
    match card.containment {
        Containment::Dike(_) => None,
        Containment::Open | Containment::Building(_) | Containment::ShedWithDoors(_) => {
            Some(vapor(card, gas.endpoint, gas.plume))
        }
    }
}

// A refrigerated gas: a pool where it runs beyond its dike's area, a vapor otherwise.
fn refrigerated(limited: Limited, gas: Gas) -> Option<Scenario>
    requires lfb_bound { (gas.lfb ≤ 1_000_000) × (gas.df ≤ 200) }
    ensures { result ≡ gas_plan State.Refrigerated limited.card gas }
{
    let card = limited.card;
    if !pool_area::beyond_dike(card.quantity, gas.df, card.containment) {
        return Some(vapor(card, gas.endpoint, gas.plume));
    }
    let source = Source {
        df: gas.df,
        lf: gas.lfb,
        tcf: 100,
        shed: false,
        endpoint: gas.endpoint,
        plume: gas.plume,
    };
    Some(pool(limited, source))
}

fn gas_plan(limited: Limited, gas: Gas) -> Option<Scenario>
    requires lfb_bound { (gas.lfb ≤ 1_000_000) × (gas.df ≤ 200) }
    ensures { result ≡ gas_plan limited.card.state limited.card gas }
{
    match limited.card.state {
        State::Gas | State::Pressurized => freed(limited.card, gas),
        State::Refrigerated => refrigerated(limited, gas),
        State::Liquid | State::Solution => None,
    }
}

// The column of B-4 that a card's temperature reads; a solution spills at 25 °C.
fn warmth(tenths: Tenths) -> Column
    ensures { result ≡ column_in tenths }
{
    match tenths {
        Tenths::Temperature(degrees) => factors::closest_column(degrees),
        Tenths::Concentration(_) => Column::At25,
    }
}

// A liquid's pool, with the factors of its temperature.
fn spilled(limited: Limited, liquid: Liquid) -> Option<Scenario>
    requires within { Within (Toxic.OfLiquid liquid) }
    ensures { result ≡ liquid_plan State.Liquid limited.card liquid }
{
    let card = limited.card;
    let (lf, tcf) = factors::factors_at(liquid, warmth(card.tenths))?;
    let source = Source {
        df: liquid.df,
        lf,
        tcf,
        shed: release::is_building(card.containment),
        endpoint: liquid.endpoint,
        plume: liquid.plume,
    };
    Some(pool(limited, source))
}

fn liquid_plan(limited: Limited, liquid: Liquid) -> Option<Scenario>
    requires within { Within (Toxic.OfLiquid liquid) }
    ensures { result ≡ liquid_plan limited.card.state limited.card liquid }
{
    match limited.card.state {
        State::Gas | State::Pressurized | State::Refrigerated | State::Solution => None,
        State::Liquid => spilled(limited, liquid),
    }
}

// TCF 1, in hundredths: a solution spills at 25 °C.
const AT_25: u16 = 100;

// A solution's pool, with the factors of the concentration that is read.
fn dissolved(limited: Limited, solution: Solution) -> Option<Scenario>
    requires lfa_bound { (solution.lfa ≤ 1_000_000) × (solution.df ≤ 200) }
    ensures { result ≡ solution_plan limited.card solution }
{
    let source = Source {
        df: solution.df,
        lf: solution.lfa,
        tcf: AT_25,
        shed: release::is_building(limited.card.containment),
        endpoint: solution.endpoint,
        plume: solution.plume,
    };
    Some(pool(limited, source))
}

// The scenario of a toxic card, or that its state, containment or exhibit allows none.
#[tactic(auto, unfolding(crate::specs::Plan::plan_of))]
pub fn plan(card: ToxicCard) -> Option<Scenario>
    requires { Limits card }
    ensures { result ≡ plan_of card }
{
    let limited = Limited { card };
    match card.entry {
        Toxic::OfGas(gas) => gas_plan(limited, gas),
        Toxic::OfLiquid(liquid) => liquid_plan(limited, liquid),
        Toxic::OfSolution(solution) => dissolved(limited, solution),
        Toxic::OutOfRange | Toxic::NotListed => None,
    }
}
