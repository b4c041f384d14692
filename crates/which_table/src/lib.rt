// Which reference table serves a toxic release: by substance, state, plume, ground and duration.
#![tactic(auto)]

ghost use Rattle.std.specs.Prelude.{◌≡◌};
ghost use Rattle.which_table.specs.WhichTable.{table_of};

use dispersion::Ground;
use exhibits::Plume;

// How the substance is held: document 01's states 1 to 4, and document 02's state 5, a water solution or oleum.
#[derive(Clone, Copy)]
pub enum State {
    Gas,
    Pressurized,
    Refrigerated,
    Liquid,
    Solution,
}

fn generic_table(plume: Plume, topography: Ground, ten_minutes: bool) -> u8
    ensures { result ≡ Rattle.which_table.specs.WhichTable.generic_table plume topography ten_minutes }
{
    match (plume, topography) {
        (Plume::Neutral, Ground::Rural) => if ten_minutes { 1 } else { 2 },
        (Plume::Neutral, Ground::Urban) => if ten_minutes { 3 } else { 4 },
        (Plume::Dense, Ground::Rural) => if ten_minutes { 5 } else { 6 },
        (Plume::Dense, Ground::Urban) => if ten_minutes { 7 } else { 8 },
    }
}

fn plume_in(state: State, plume: Plume) -> Plume
    ensures { result ≡ Rattle.which_table.specs.WhichTable.plume_in state plume }
{
    match state {
        State::Pressurized | State::Refrigerated => Plume::Dense,
        State::Gas | State::Liquid | State::Solution => plume,
    }
}

fn ammonia_table(state: State) -> u8
    ensures { result ≡ Rattle.which_table.specs.WhichTable.ammonia_table state }
{
    match state {
        State::Pressurized => 9,
        State::Gas | State::Refrigerated | State::Liquid | State::Solution => 10,
    }
}

fn ten_minutes_in(state: State, ten_minutes: bool) -> bool
    ensures { result ≡ Rattle.which_table.specs.WhichTable.ten_minutes_in state ten_minutes }
{
    ten_minutes || matches!(state, State::Solution)
}

// The CAS numbers of the three substances that have tables of their own.
const AMMONIA: u32 = 7_664_417;

const CHLORINE: u32 = 7_782_505;

const SULFUR_DIOXIDE: u32 = 7_446_095;

// The reference table of a substance: three have their own, the others go by plume, ground and duration.
#[tactic(auto, unfolding(crate::specs::WhichTable::table_of))]
pub fn table(cas: u32, state: State, plume: Plume, topography: Ground, ten_minutes: bool) -> u8
    ensures { result ≡ table_of cas state plume topography ten_minutes }
{
    match cas {
        AMMONIA => ammonia_table(state),
        CHLORINE => 11,
        SULFUR_DIOXIDE => 12,
        _ => generic_table(
            plume_in(state, plume),
            topography,
            ten_minutes_in(state, ten_minutes),
        ),
    }
}
