// The numbers of a comma line: whether a text is a decimal number or a temperature, and which.
#![tactic(auto)]

ghost use Rattle.std.specs.Prelude.{◌≡◌, ◌≤◌};
ghost use Rattle.numerals.specs.Numerals.{read_on, number_in, heat_in};

// What a field is to hold: a decimal number of at most so much, a CAS number with hyphens, or a temperature.
#[derive(Clone, Copy)]
pub enum Form {
    Decimal(u32),
    Cas,
    Temperature,
}

// The largest number of four bytes.
pub const FOUR_BYTES: u32 = u32::MAX;

// Digits read on from a number, or none where they are not well formed. It stops at the first byte that is no digit, or once the
// number is too wide.
pub fn read_on(digits: &[u8], so_far: u32, most: u32) -> Option<u32>
    requires { so_far ≤ most }
    ensures { result ≡ read_on most so_far digits.now }
{
    let mut value = so_far as u64;
    for &b in digits {
        if !b.is_ascii_digit() {
            return None;
        }
        value = value * 10 + (b - b'0') as u64;
        if (most as u64) < value {
            return None;
        }
    }
    Some(value as u32)
}

// A decimal number of at most so much.
pub fn number_in(text: &[u8], most: u32) -> Option<u32>
    ensures { result ≡ number_in most text.now }
{
    if text.is_empty() {
        return None;
    }
    read_on(text, 0, most)
}

// A temperature, as the two bytes that a card has, still unsigned.
pub fn heat_in(text: &[u8]) -> Option<u32>
    ensures { result ≡ heat_in text.now }
{
    let [b'-', rest @ ..] = text else {
        return number_in(text, 32_767);
    };
    let below = number_in(rest, 32_768)?;
    if below == 0 {
        return None;
    }
    Some(65_536 - below)
}
