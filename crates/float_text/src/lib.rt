// A likely distance as text: its miles rounded up, and its bits. A likely distance is a 64-bit float in hundredths of a mile. The
// caller sees to the room; every byte outside what is written stays as it was.
#![tactic(auto)]

ghost use Rattle.std.specs.Prelude.{◌≡◌, ◌+◌, ◌<◌, ◌≤◌, not, T, is_nan};
ghost use Rattle.std.specs.Float.Ieee.{le};
ghost use Rattle.buffer.specs.Puts.{Room, Puts};
ghost use Rattle.decimal.specs.Decimal.{fixed};
ghost use Rattle.interpolation.specs.Interpolation.{float_of};
ghost use Rattle.float_text.specs.RoundedUp.{up_of};
ghost use Rattle.float_text.specs.Hex.{pattern_of};

use buffer::Writer;

// The least whole number of hundredths that is not below the distance. The whole part is exact, and up to 2,500 so is its float:
// where that is below the distance, something was cut off.
pub fn up(x: f64) -> u64
    requires { T (le (float_of 0) x) × T (le x (float_of 2500)) }
    ensures value { result ≡ up_of x }
    ensures upper_bound { result ≤ 2500 }
{
    let whole = std::num::truncating_f64_to_u64(x);
    if std::num::nearest_u64_to_f64(whole) < x {
        return whole + 1;
    }
    whole
}

// The miles with two decimals, rounded up: a ring is never shown smaller than it is.
pub fn put_miles_up(out: &mut Writer, x: f64)
    requires { Room out.old 24 × T (le (float_of 0) x) × T (le x (float_of 2500)) }
    ensures wrote { Puts out.old out.new (fixed 2 (up_of x)) }
    ensures upper_bound { out.new.at ≤ out.old.at + 24 }
{
    let hundredths = up(x);
    decimal::put_fixed(out, 2, hundredths);
}

// The pattern of the float as sixteen hex digits, so that a record keeps every bit.
#[tactic(auto, unfolding(crate::specs::Hex::pattern_of))]
pub fn put_pattern(out: &mut Writer, x: f64)
    requires { Room out.old 16 × T (not (is_nan x)) }
    ensures wrote { Puts out.old out.new (pattern_of x) }
    ensures value { out.new.at ≡ out.old.at + 16 }
{
    decimal::put_digits::<16>(out, 16, x.to_bits());
}
