// A card's line of a listing, written as text into a lent buffer. Every byte outside the text stays as it was.
#![tactic(auto)]

ghost use Rattle.std.specs.Prelude.{◌+◌, ◌≤◌};
ghost use Rattle.buffer.specs.Puts.{Room, Puts};
ghost use Rattle.lines.specs.Lines.{miles_text, rates_text, numbers_text, card_line};

use buffer::Writer;
use card::Answer;
use units::{Miles, PoundsPerMinute};

// A distance and the line feed: the end of a card's line and of a leader's.
pub fn put_miles(out: &mut Writer, distance: Miles)
    requires { Room out.old 32 }
    ensures wrote { Puts out.old out.new (miles_text distance.0) }
    ensures upper_bound { out.new.at ≤ out.old.at + 32 }
{
    let miles = dispersion::hundredths(distance);
    decimal::put_fixed(out, 2, miles as u64);
    buffer::put_byte(out, b'\n');
}

// The second half of a card's line.
fn put_rates(out: &mut Writer, rate: PoundsPerMinute, distance: Miles)
    requires { Room out.old 64 }
    ensures wrote { Puts out.old out.new (rates_text rate.0 distance.0) }
    ensures upper_bound { out.new.at ≤ out.old.at + 64 }
{
    decimal::put_fixed(out, 3, release::thousandths(rate));
    buffer::put_byte(out, b' ');
    put_miles(out, distance);
}

// The first half of a card's line.
fn put_numbers(out: &mut Writer, number: u32, route: u8, table: u8)
    requires { Room out.old 64 }
    ensures wrote { Puts out.old out.new (numbers_text number route table) }
    ensures upper_bound { out.new.at ≤ out.old.at + 64 }
{
    decimal::put_number_then(out, number as u64, b' ');
    decimal::put_number_then(out, route as u64, b' ');
    decimal::put_number_then(out, table as u64, b' ');
}

// The line of a card.
pub fn put_card_line(out: &mut Writer, answer: Answer)
    requires { Room out.old 128 }
    ensures wrote { Puts out.old out.new (card_line answer) }
    ensures upper_bound { out.new.at ≤ out.old.at + 128 }
{
    put_numbers(out, answer.number, answer.route, answer.table);
    put_rates(out, answer.rate, answer.distance);
}
