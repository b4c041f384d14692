// The four units of the guidance, as tuple structs, so that none of them can stand for another. Only the rate and table
// functions make and open them (docs/DECISIONS.md names the crates); everybody else passes them on whole, or compares two of
// one kind.
#![tactic(auto)]

// Whole pounds of a substance.
#[derive(Clone, Copy, PartialEq, Eq, PartialOrd, Ord)]
pub struct Pounds(pub u32);

// A release rate, in thousandths of a pound per minute.
#[derive(Clone, Copy, PartialEq, Eq, PartialOrd, Ord)]
pub struct PoundsPerMinute(pub u64);

// An area, in hundredths of a square foot.
#[derive(Clone, Copy, PartialEq, Eq, PartialOrd, Ord)]
pub struct SquareFeet(pub u64);

// A distance, in hundredths of a mile.
#[derive(Clone, Copy, PartialEq, Eq, PartialOrd, Ord)]
pub struct Miles(pub u16);
