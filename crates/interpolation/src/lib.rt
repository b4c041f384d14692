// How a likely scenario reads a table of rows (document 02, A6): at a printed rate the entry, between two rows the line between
// them, in 64-bit floats. The functions take the table as lent lists, whichever table it is.
#![tactic(auto)]

ghost use Rattle.std.specs.Prelude.{◌≡◌, ◌<◌, length, slice_index};
ghost use Rattle.interpolation.specs.Interpolation.{float_of, row_of, line_between, entry_read, between_rows, above_last, likely_at};

use rules::MILE_LIMIT;

// A row of a table: its rate in thousandths of a pound per minute and its distance in hundredths of a mile.
#[derive(Clone, Copy)]
pub struct Row {
    pub rate: f64,
    pub distance: f64,
}

// A likely distance in hundredths of a mile: printed, interpolated between two rows, or the limit of 25 miles.
#[derive(Clone, Copy)]
pub enum Likely {
    Printed(f64),
    Interpolated(f64),
    Limit(f64),
}

// A rate, and a distance, as floats, which hold them exactly.
fn rate_float(rate: u64) -> f64
    ensures { result ≡ float_of rate }
{
    std::num::nearest_u64_to_f64(rate)
}

fn distance_float(distance: u16) -> f64
    ensures { result ≡ float_of distance }
{
    distance as f64
}

fn row_of(rate: u64, distance: u16) -> Row
    ensures { result ≡ row_of rate distance }
{
    Row {
        rate: rate_float(rate),
        distance: distance_float(distance),
    }
}

// The line between two neighbouring rows, at a rate. The order of the operations is the paper's: quotient, product, sum.
fn interpolate(low: Row, high: Row, rate: f64) -> f64
    ensures { result ≡ line_between low high rate }
{
    low.distance + (high.distance - low.distance) * ((rate - low.rate) / (high.rate - low.rate))
}

// An entry in use that is read as it stands.
#[tactic(auto, unfolding(crate::specs::Interpolation::entry_read))]
pub fn entry(distance: u16) -> Likely
    ensures { result ≡ entry_read distance }
{
    if distance == MILE_LIMIT {
        return Likely::Limit(distance_float(distance));
    }
    Likely::Printed(distance_float(distance))
}

// A rate strictly between two rows, whose upper entry may be the limit.
#[tactic(auto, unfolding(crate::specs::Interpolation::between_rows))]
fn between(r0: u64, d0: u16, r1: u64, d1: u16, rate: u64) -> Likely
    ensures { result ≡ between_rows r0 d0 r1 d1 rate }
{
    if d1 == MILE_LIMIT {
        return Likely::Limit(distance_float(d1));
    }
    let low = row_of(r0, d0);
    let high = row_of(r1, d1);
    Likely::Interpolated(interpolate(low, high, rate_float(rate)))
}

// A rate above the last row, whose entry may be the limit; otherwise it is beyond the table.
#[tactic(auto, unfolding(crate::specs::Interpolation::above_last))]
fn above_last(last: u16) -> Option<Likely>
    ensures { result ≡ above_last last }
{
    if last == MILE_LIMIT {
        return Some(Likely::Limit(distance_float(last)));
    }
    None
}

// A table of rows, by their rates in thousandths and the entries in use of the column that is read, at a rate: a distance, or none
// where the rate is beyond the table.
#[tactic(auto, unfolding(crate::specs::Interpolation::likely_at))]
pub fn read(rates: &[u64], entries: &[u16], rate: u64) -> Option<Likely>
    requires { (0 < length rates.now) × (length entries.now ≡ length rates.now) }
    ensures { result ≡ likely_at rates.now (λ i. slice_index entries.now i) rate }
{
    let at = search::first_at_least(rates, rate);
    let count = rates.len();
    if count <= at {
        return above_last(entries[count - 1]);
    }
    if at == 0 {
        return Some(entry(entries[0]));
    }
    if rates[at] == rate {
        return Some(entry(entries[at]));
    }
    let below = at - 1;
    Some(between(rates[below], entries[below], rates[at], entries[at], rate))
}
