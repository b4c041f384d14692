// Exhibit B-3 as printed, and what it says of a substance at a concentration.
#![tactic(auto)]

mod tables;

// What Exhibit B-3 says of a CAS number at a concentration in tenths of a percent.
pub use tables::solution_of;
