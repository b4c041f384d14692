// Reference Tables 1 to 12: from a rate and an endpoint to a distance. Tables 1 to 8 are read in the crates below; Tables 9 to 12
// are constants of `tables`. The definitions of specs/ say what is printed, and the proofs tie the one to the other.
#![tactic(auto)]

mod tables;

ghost use Rattle.std.specs.Prelude.{◌≡◌, ◌<◌};
ghost use Rattle.dispersion.specs.Tables.{column_of, reading_of};
ghost use Rattle.dispersion.specs.Rows.{row_read};
ghost use Rattle.dispersion.specs.declared.Ground.{Ground};

use tables::{TABLE_9, TABLE_10, TABLE_11, TABLE_12};
use units::{Miles, PoundsPerMinute};

// The surroundings of a card.
#[derive(Clone, Copy)]
pub enum Ground {
    Rural,
    Urban,
}

// A distance in hundredths of a mile.
pub fn hundredths(distance: Miles) -> u16
    ensures { result ≡ distance.0 }
{
    distance.0
}

// A table of rates down and two columns across, with so many rows: a rate for each row in thousandths of a pound per minute, and the
// entries in use of its two columns in hundredths of a mile. In Tables 9 to 12 the rate is the largest that reads the row, the last row's
// its own; in 22 to 25, which the likely scenarios read, it is the row's.
pub struct Lines<const ROWS: usize> {
    pub rates: [u64; ROWS],
    pub rural: [u16; ROWS],
    pub urban: [u16; ROWS],
}

impl<const ROWS: usize> Lines<ROWS> {
    // The column of the card's ground.
    #[inline(always)]
    pub fn column(&self, topography: Ground) -> &[u16; ROWS]
        ensures { result.now ≡ column_of topography self.now.rural self.now.urban }
    {
        match topography {
            Ground::Rural => &self.rural,
            Ground::Urban => &self.urban,
        }
    }

    // What one of Tables 9 to 12 answers on the card's ground at a rate; above the last row, its entry is read. At each table of its own,
    // so that the walk over the rates becomes comparisons with numbers.
    #[inline(always)]
    #[tactic(auto, unfolding(crate::specs::Rows::row_read, rules::specs::Rules::last_of))]
    fn read(&self, topography: Ground, rate: u64) -> Option<Miles>
        requires { 0 < ROWS }
        ensures { result ≡ row_read self.now.rates (column_of topography self.now.rural self.now.urban) rate }
    {
        let last = ROWS - 1;
        let row = search::first_at_least(&self.rates, rate).min(last);
        rules::answer(self.rates[last], rate, self.column(topography)[row])
    }
}

// What a table answers at a rate and an endpoint in hundred-thousandths of mg/L, on the card's ground.
pub fn read(table: u8, topography: Ground, rate: PoundsPerMinute, endpoint: u32) -> Option<Miles>
    ensures { result ≡ reading_of table topography rate.0 endpoint }
{
    let thousandths = rate.0;
    match table {
        0..=4 => neutral::read(table, thousandths, endpoint),
        5..=8 => dense::read(table, thousandths, endpoint),
        9 => TABLE_9.read(topography, thousandths),
        10 => TABLE_10.read(topography, thousandths),
        11 => TABLE_11.read(topography, thousandths),
        12 => TABLE_12.read(topography, thousandths),
        _ => None,
    }
}
