// How a reference table is read, whichever table it is: what the functions search is lent to them.
#![tactic(auto)]

ghost use Rattle.std.specs.Prelude.{◌≡◌, false, suc, ◌+◌, ◌*◌, ◌/◌, ltb, length, get_or};
ghost use Rattle.search.specs.Rising.{first_at_least};
ghost use Rattle.rules.specs.Rules.{answered};
ghost use Rattle.rules.specs.Cuts.{scaled};

use units::Miles;

// 25 miles, in hundredths.
pub const MILE_LIMIT: u16 = 2500;

// The row and the column of a dense table that settle a reading.
#[derive(Clone, Copy)]
pub struct Place {
    pub row: usize,
    pub column: usize,
}

// The walk through a dense table, over the cut points of its rows and columns. A place is settled by the first cut point that
// is not exceeded, or as the last one. The columns are walked only in the row that is settled.
pub fn settle(rows: &[u64], columns: &[u64], rate: u64, endpoint: u64) -> Place
    ensures { (result.row ≡ first_at_least rate rows.now) × (result.column ≡ first_at_least endpoint columns.now) }
{
    let mut row = 0;
    let mut column = 0;
    'rows: loop {
        if row == rows.len() || rate <= rows[row] {
            loop {
                if column == columns.len() || endpoint <= columns[column] {
                    break 'rows;
                }
                column += 1;
            }
        }
        row += 1;
    }
    Place { row, column }
}

// What an entry in use answers: up to the last row it is the distance, above it only where it is 25 miles. Otherwise the card lies
// beyond the table.
#[tactic(auto, unfolding(crate::specs::Rules::answered))]
pub fn answer(last: u64, rate: u64, entry: u16) -> Option<Miles>
    ensures { result ≡ answered (ltb last rate) entry }
{
    if rate <= last || entry == MILE_LIMIT {
        return Some(Miles(entry));
    }
    None
}

// The least rate at which rate / endpoint reaches a bound. The bound is scaled down, since the rate could not be scaled up
// without overflow; rounding up keeps the comparison exact.
fn reaching(bound: u32, endpoint: u32) -> u64
    ensures { result ≡ (bound * endpoint + 999) / 1000 }
{
    (bound as u64 * endpoint as u64 + 999) / 1000
}

// The entry of the range that holds rate / endpoint. The last range is open, so there is one for every ratio.
fn in_range(bounds: &[u32], entries: &[u16], rate: u64, endpoint: u32) -> Miles
    requires { length entries.now ≡ length bounds.now + 1 }
    ensures { result.0 ≡ get_or entries.now (first_at_least (suc (1000 * rate)) (scaled endpoint bounds.now)) 0 }
{
    let range = bounds
        .iter()
        .position(|&bound| rate < reaching(bound, endpoint));
    Miles(entries[range.unwrap_or(bounds.len())])
}

// A table of ranges whose length is known only as the program runs, by the upper bounds of the closed ranges in tenths and the entries
// in use, the open range's last: its answer, which no ratio goes beyond.
#[tactic(auto, unfolding(crate::specs::Rules::answered))]
pub fn by_range(bounds: &[u32], entries: &[u16], rate: u64, endpoint: u32) -> Option<Miles>
    requires { length entries.now ≡ length bounds.now + 1 }
    ensures { result ≡ answered false (get_or entries.now (first_at_least (suc (1000 * rate)) (scaled endpoint bounds.now)) 0) }
{
    Some(in_range(bounds, entries, rate, endpoint))
}

// A table of ranges of rate / endpoint: the upper bounds of the closed ones in tenths, and the entries in use in hundredths of a
// mile, the open range's last.
pub struct Ranges<const BOUNDS: usize, const ENTRIES: usize> {
    pub bounds: [u32; BOUNDS],
    pub entries: [u16; ENTRIES],
}

impl<const BOUNDS: usize, const ENTRIES: usize> Ranges<BOUNDS, ENTRIES> {
    // The entry of the range that holds rate / endpoint.
    pub fn read(&self, rate: u64, endpoint: u32) -> Miles
        requires { ENTRIES ≡ BOUNDS + 1 }
        ensures { result.0 ≡ get_or self.now.entries (first_at_least (suc (1000 * rate)) (scaled endpoint self.now.bounds)) 0 }
    {
        in_range(&self.bounds, &self.entries, rate, endpoint)
    }
}
