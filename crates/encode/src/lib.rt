// Writes a card's answer into a lent buffer: sixteen bytes, and no other byte changes. And tells of sixteen such bytes whether they are
// from the time of Table 13.
#![tactic(auto)]

ghost use Rattle.std.specs.Prelude.{◌≡◌, ◌+◌};
ghost use Rattle.buffer.specs.Puts.{Room, Puts};
ghost use Rattle.encode.specs.Bytes.{answer_bytes, is_old};

use buffer::Writer;
use card::Answer;

// The sixteen bytes of an answer: card number 4, route 1, table 1, rate 8, distance 2. The class is not
// among them, since a reader has it from the register.
pub fn put_answer(out: &mut Writer, answer: Answer)
    requires { Room out.old 16 }
    ensures wrote { Puts out.old out.new (answer_bytes answer) }
    ensures value { out.new.at ≡ out.old.at + 16 }
{
    buffer::put_four(out, answer.number);
    buffer::put_byte(out, answer.route);
    buffer::put_byte(out, answer.table);
    buffer::put_eight(out, release::thousandths(answer.rate));
    buffer::put_two(out, dispersion::hundredths(answer.distance));
}

// Whether a stored answer is old: its table number is that of the table that blasts were read off.
pub fn is_old(answer: &[u8; 16]) -> bool
    ensures { result ≡ is_old answer.now }
{
    answer[5] == 13
}
