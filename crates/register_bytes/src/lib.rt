// The bytes of a version 1 register, written into a buffer: its header, and a card's fields.
#![tactic(auto)]

ghost use Rattle.std.specs.Prelude.{◌≡◌, ◌+◌, ◌*◌, ◌≤◌};
ghost use Rattle.buffer.specs.Puts.{Room, Puts};
ghost use Rattle.comma.specs.Text.{card_bytes, header_bytes};
ghost use Rattle.register_bytes.specs.Parts.{code_bytes, amount_bytes, last_bytes};

use buffer::Writer;
use fields::Fields;

// "Four bytes: length of the whole register. One byte: version, 1. Two bytes: card count"
pub fn put_header(out: &mut Writer, count: usize)
    requires { (count ≤ 2000) × Room out.old 7 }
    ensures wrote { Puts out.old out.new (header_bytes count) }
    ensures value { out.new.at ≡ out.old.at + 7 }
{
    let whole = 7 + 24 * count;
    buffer::put_four(out, whole as u32);
    buffer::put_byte(out, 1);
    buffer::put_two(out, count as u16);
}

// Bytes 0 to 3 of a card.
fn put_codes(out: &mut Writer, fields: Fields)
    requires { Room out.old 4 }
    ensures wrote { Puts out.old out.new (code_bytes fields) }
    ensures value { out.new.at ≡ out.old.at + 4 }
{
    buffer::put_byte(out, fields.kind);
    buffer::put_byte(out, fields.state);
    buffer::put_byte(out, fields.topography);
    buffer::put_byte(out, fields.containment);
}

// Its CAS number, pounds and area.
fn put_amounts(out: &mut Writer, fields: Fields)
    requires { Room out.old 12 }
    ensures wrote { Puts out.old out.new (amount_bytes fields) }
    ensures value { out.new.at ≡ out.old.at + 12 }
{
    buffer::put_four(out, fields.cas);
    buffer::put_four(out, fields.pounds);
    buffer::put_four(out, fields.area);
}

// Its wall, temperature and number.
fn put_lasts(out: &mut Writer, fields: Fields)
    requires { Room out.old 8 }
    ensures wrote { Puts out.old out.new (last_bytes fields) }
    ensures value { out.new.at ≡ out.old.at + 8 }
{
    buffer::put_two(out, fields.wall);
    buffer::put_two(out, fields.heat);
    buffer::put_four(out, fields.number);
}

// The 24 bytes of a card.
pub fn put_card(out: &mut Writer, fields: Fields)
    requires { Room out.old 24 }
    ensures wrote { Puts out.old out.new (card_bytes fields) }
    ensures value { out.new.at ≡ out.old.at + 24 }
{
    put_codes(out, fields);
    put_amounts(out, fields);
    put_lasts(out, fields);
}
