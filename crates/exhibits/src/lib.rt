// Exhibits B-1, B-2 and B-4, and the types of what all four say of a toxic substance. A mark for no data is a case of its own,
// never a number.
#![tactic(auto)]

mod tables;

// The gas of Exhibit B-1 or the liquid of Exhibit B-2, with its factors of B-4, that has a CAS number.
pub use tables::toxic_of;

// How a plume behaves in air.
#[derive(Clone, Copy)]
pub enum Plume {
    Neutral,
    Dense,
}

// A cell of Exhibit B-4: a factor in hundredths, "use LFB instead", or no data.
#[derive(Clone, Copy)]
pub enum Cell {
    Factor(u16),
    Lfb,
    NoData,
}

// A liquid's cells at 30, 35, 40, 45 and 50 °C.
#[derive(Clone, Copy)]
pub struct Corrections {
    pub at30: Cell,
    pub at35: Cell,
    pub at40: Cell,
    pub at45: Cell,
    pub at50: Cell,
}

// LFB in millionths, DF in hundredths, the endpoint in hundred-thousandths of mg/L, the plume of the one column that B-1 has.
#[derive(Clone, Copy)]
pub struct Gas {
    pub lfb: u32,
    pub df: u8,
    pub endpoint: u32,
    pub plume: Plume,
}

// LFA and LFB in millionths, DF in hundredths, the endpoint in hundred-thousandths of mg/L, the worst-case and the alternative-case
// plume.
#[derive(Clone, Copy)]
pub struct Liquid {
    pub lfa: u32,
    pub lfb: u32,
    pub df: u8,
    pub endpoint: u32,
    pub plume: Plume,
    pub alternative: Plume,
    pub corrections: Corrections,
}

// A water solution, or oleum, at a concentration: LFA in millionths, DF in hundredths, the endpoint in hundred-thousandths of mg/L,
// the worst-case and the alternative-case plume.
#[derive(Clone, Copy)]
pub struct Solution {
    pub lfa: u32,
    pub df: u8,
    pub endpoint: u32,
    pub plume: Plume,
    pub alternative: Plume,
}

// What the exhibits say of a CAS number, and of a solution's concentration, which may be out of range.
#[derive(Clone, Copy)]
pub enum Toxic {
    OfGas(Gas),
    OfLiquid(Liquid),
    OfSolution(Solution),
    OutOfRange,
    NotListed,
}
