// The numbers of a strict line that have a form of their own, a CAS number and a temperature or concentration, written as text into a
// lent buffer. Every byte outside the text stays as it was.
#![tactic(auto)]

ghost use Rattle.std.specs.Prelude.{◌+◌, ◌≤◌, [], ◌∷◌, ◌++◌};
ghost use Rattle.buffer.specs.Puts.{Room, Puts};
ghost use Rattle.comma.specs.Strict.{cas_text, heat_text, tenths_text};
ghost use Rattle.strict_numbers.specs.Parts.{cas_end};

use buffer::Writer;

// What stands in front of a temperature below zero.
const MINUS: u8 = b'-';

// The last two groups of a CAS number and the comma behind it.
fn put_cas_end(out: &mut Writer, cas: u32)
    requires { Room out.old 8 }
    ensures wrote { Puts out.old out.new (cas_end cas) }
    ensures upper_bound { out.new.at ≤ out.old.at + 8 }
{
    decimal::put_digits::<10>(out, 2, cas as u64 / 10);
    buffer::put_byte(out, b'-');
    decimal::put_digits::<10>(out, 1, cas as u64);
    buffer::put_byte(out, b',');
}

// A CAS number with its hyphens, and a comma.
pub fn put_cas(out: &mut Writer, cas: u32)
    requires { Room out.old 32 }
    ensures wrote { Puts out.old out.new (cas_text cas ++ (44 ∷ [])) }
    ensures upper_bound { out.new.at ≤ out.old.at + 32 }
{
    decimal::put_number_then(out, cas as u64 / 1_000, b'-');
    put_cas_end(out, cas);
}

// A temperature, from its two bytes as a card has them, and a comma.
fn put_heat(out: &mut Writer, heat: u16)
    requires { Room out.old 32 }
    ensures wrote { Puts out.old out.new (heat_text heat ++ (44 ∷ [])) }
    ensures upper_bound { out.new.at ≤ out.old.at + 32 }
{
    if heat < 32_768 {
        decimal::put_number_then(out, heat as u64, b',');
        return;
    }
    buffer::put_byte(out, MINUS);
    decimal::put_number_then(out, 65_536 - heat as u64, b',');
}

// The ninth number, and a comma: in state 5, a water solution's, the concentration without a sign, else the temperature.
pub fn put_tenths(out: &mut Writer, state: u8, heat: u16)
    requires { Room out.old 32 }
    ensures wrote { Puts out.old out.new (tenths_text state heat ++ (44 ∷ [])) }
    ensures upper_bound { out.new.at ≤ out.old.at + 32 }
{
    if state == 5 {
        decimal::put_number_then(out, heat as u64, b',');
        return;
    }
    put_heat(out, heat);
}
