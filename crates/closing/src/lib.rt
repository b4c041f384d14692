// The lines of a listing that are no card's: the farthest card of each class, or the one line that says why there is no
// listing. Every byte outside the line stays as it was.
#![tactic(auto)]

ghost use Rattle.std.specs.Prelude.{◌+◌, ◌≤◌};
ghost use Rattle.buffer.specs.Puts.{Room, Puts};
ghost use Rattle.closing.specs.Closing.{leader_line, refused_line, too_long};

use buffer::Writer;
use farthest::Leader;

// The line of a class that has a card.
fn put_leading(out: &mut Writer, letter: u8, leader: Leader)
    requires { Room out.old 64 }
    ensures wrote { Puts out.old out.new (leader_line letter (Some leader)) }
    ensures upper_bound { out.new.at ≤ out.old.at + 64 }
{
    buffer::put_byte(out, letter);
    buffer::put_byte(out, b' ');
    decimal::put_number_then(out, leader.number as u64, b' ');
    lines::put_miles(out, leader.distance);
}

// The line of a class, which begins with the class's letter.
pub fn put_leader(out: &mut Writer, letter: u8, leader: Option<Leader>)
    requires { Room out.old 64 }
    ensures wrote { Puts out.old out.new (leader_line letter leader) }
    ensures upper_bound { out.new.at ≤ out.old.at + 64 }
{
    let Some(leading) = leader else {
        buffer::put_byte(out, letter);
        buffer::put_text(out, b" none\n");
        return;
    };
    put_leading(out, letter, leading);
}

// The one line of a register that is sent back.
pub fn put_refused(out: &mut Writer, number: u8, place: u32)
    requires { Room out.old 64 }
    ensures wrote { Puts out.old out.new (refused_line number place) }
    ensures upper_bound { out.new.at ≤ out.old.at + 64 }
{
    buffer::put_text(out, b"refused ");
    decimal::put_number(out, number as u64);
    buffer::put_text(out, b" at ");
    decimal::put_number_then(out, place as u64, b'\n');
}

// The one line of an input that is too long.
pub fn put_too_long(out: &mut Writer)
    requires { Room out.old 64 }
    ensures wrote { Puts out.old out.new too_long }
    ensures upper_bound { out.new.at ≤ out.old.at + 64 }
{
    buffer::put_text(out, b"too long\n");
}
