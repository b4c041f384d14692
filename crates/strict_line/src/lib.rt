// The strict line of a card, written as text into a lent buffer. Every byte outside the text stays as it was.
#![tactic(auto)]

ghost use Rattle.std.specs.Prelude.{◌+◌, ◌≤◌, [], ◌∷◌, ◌++◌};
ghost use Rattle.buffer.specs.Puts.{Room, Puts};
ghost use Rattle.decimal.specs.Decimal.{digits};
ghost use Rattle.comma.specs.Strict.{strict_line};
ghost use Rattle.strict_line.specs.Parts.{codes_text, amounts_text, lasts_text};

use buffer::Writer;
use fields::Fields;

// Kind, state, ground and containment, a comma behind each.
fn put_codes(out: &mut Writer, fields: Fields)
    requires { Room out.old 96 }
    ensures wrote { Puts out.old out.new (codes_text fields) }
    ensures upper_bound { out.new.at ≤ out.old.at + 96 }
{
    decimal::put_number_then(out, fields.kind as u64, b',');
    decimal::put_number_then(out, fields.state as u64, b',');
    decimal::put_number_then(out, fields.topography as u64, b',');
    decimal::put_number_then(out, fields.containment as u64, b',');
}

// CAS number, pounds and area, a comma behind each.
fn put_amounts(out: &mut Writer, fields: Fields)
    requires { Room out.old 80 }
    ensures wrote { Puts out.old out.new (amounts_text fields) }
    ensures upper_bound { out.new.at ≤ out.old.at + 80 }
{
    strict_numbers::put_cas(out, fields.cas);
    decimal::put_number_then(out, fields.pounds as u64, b',');
    decimal::put_number_then(out, fields.area as u64, b',');
}

// The card number and its comma, no remark, and the line feed.
fn put_end(out: &mut Writer, number: u32)
    requires { Room out.old 24 }
    ensures wrote { Puts out.old out.new (digits number ++ (44 ∷ 10 ∷ [])) }
    ensures upper_bound { out.new.at ≤ out.old.at + 24 }
{
    decimal::put_number_then(out, number as u64, b',');
    buffer::put_byte(out, b'\n');
}

// Wall and temperature or concentration, a comma behind each, and the end of the line.
fn put_lasts(out: &mut Writer, fields: Fields)
    requires { Room out.old 80 }
    ensures wrote { Puts out.old out.new (lasts_text fields) }
    ensures upper_bound { out.new.at ≤ out.old.at + 80 }
{
    decimal::put_number_then(out, fields.wall as u64, b',');
    strict_numbers::put_tenths(out, fields.state, fields.heat);
    put_end(out, fields.number);
}

// The strict line of a card and its line feed.
pub fn put_line(out: &mut Writer, fields: Fields)
    requires { Room out.old 256 }
    ensures wrote { Puts out.old out.new (strict_line fields ++ (10 ∷ [])) }
    ensures upper_bound { out.new.at ≤ out.old.at + 256 }
{
    put_codes(out, fields);
    put_amounts(out, fields);
    put_lasts(out, fields);
}
