// Writes numbers as text into a lent buffer, one text behind the other. The caller sees to the room; every byte outside the text
// stays as it was.
#![tactic(auto)]

ghost use Rattle.std.specs.Prelude.{◌≡◌, ◌+◌, ◌<◌, ◌≤◌, [], ◌∷◌, ◌++◌, length};
ghost use Rattle.buffer.specs.Puts.{Room, Puts};
ghost use Rattle.decimal.specs.Digits.{digit, digits_in};
ghost use Rattle.decimal.specs.Decimal.{digits, fixed};

use buffer::Writer;

// How many digits n has.
fn digit_count(n: u64) -> usize
    ensures { (result ≡ length (digits n)) × (result ≤ 20) }
{
    n.checked_ilog10().unwrap_or(0) as usize + 1
}

// The digit of a number below sixteen, in lower case: the letters stand behind 9.
#[tactic(auto, unfolding(crate::specs::Digits::digit))]
fn digit(d: u8) -> u8
    requires { d < 16 }
    ensures { result ≡ digit d }
{
    if d < 10 {
        return b'0' + d;
    }
    b'a' + (d - 10)
}

// The last digits of n in a base, as many as there is room for, with zeros in front where n has fewer. Written from the last to the
// first, since a division by the base gives the last digit.
fn fill_digits<const BASE: u64>(room: &mut [u8], n: u64)
    requires { (2 ≤ BASE) × (BASE ≤ 16) }
    ensures { room.new ≡ digits_in BASE (length room.old) n }
{
    let mut rest = n;
    for place in (0..room.len()).rev() {
        room[place] = digit((rest % BASE) as u8);
        rest /= BASE;
    }
}

// The last count digits of n in a base.
pub fn put_digits<const BASE: u64>(out: &mut Writer, count: usize, n: u64)
    requires base { (2 ≤ BASE) × (BASE ≤ 16) }
    requires room { Room out.old count }
    ensures wrote { Puts out.old out.new (digits_in BASE count n) }
    ensures value { out.new.at ≡ out.old.at + count }
{
    let end = out.at + count;
    fill_digits::<BASE>(&mut out.bytes[out.at..end], n);
    out.at = end;
}

// A number in decimal without leading zeros.
#[tactic(auto, using(crate::proofs::Turns::counted))]
pub fn put_number(out: &mut Writer, n: u64)
    requires { Room out.old 20 }
    ensures wrote { Puts out.old out.new (digits n) }
    ensures upper_bound { out.new.at ≤ out.old.at + 20 }
{
    let count = digit_count(n);
    put_digits::<10>(out, count, n);
}

// A number and the byte behind it: a space, or the line feed that ends the line.
pub fn put_number_then(out: &mut Writer, n: u64, b: u8)
    requires { Room out.old 21 }
    ensures wrote { Puts out.old out.new (digits n ++ (b ∷ [])) }
    ensures upper_bound { out.new.at ≤ out.old.at + 21 }
{
    put_number(out, n);
    buffer::put_byte(out, b);
}

// A number with so many decimals, counted in the units that they give: hundredths "with two decimals", thousandths "with three
// decimals".
pub fn put_fixed(out: &mut Writer, places: usize, n: u64)
    requires { (places ≤ 3) × Room out.old 24 }
    ensures wrote { Puts out.old out.new (fixed places n) }
    ensures upper_bound { out.new.at ≤ out.old.at + 24 }
{
    let whole = 10u64.pow(places as u32);
    put_number(out, n / whole);
    buffer::put_byte(out, b'.');
    put_digits::<10>(out, places, n % whole);
}
