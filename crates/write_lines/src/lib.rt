// The writer of comma lines: from an accepted register of version 1 into a lent text, each card as its strict line. The cards are
// gone through twice, once for the length of the text and once to write it, so that a buffer too short stays as it was.
#![tactic(auto)]

ghost use Rattle.std.specs.Prelude.{◌≡◌, ◌≤◌, map, length};
ghost use Rattle.fields.specs.Layout.{fields_of};
ghost use Rattle.header.specs.InTurn.{in_turn};
ghost use Rattle.comma.specs.Strict.{strict_lines};
ghost use Rattle.write_lines.specs.Writing.{writable, answer_as, written_as, writing_of, write_into};
ghost use Rattle.write_lines.specs.Accepted.{accepted};

use farthest::Leaders;
use header::Cards;
use refusals::{Refusal, SentBack};

// The text of an accepted register's cards, or 13.
#[tactic(auto, using(buffer::proofs::Laws::written_first))]
fn write_cards(cards: Cards, out: &mut [u8]) -> Result<usize, SentBack<usize>>
    requires { length (in_turn cards) ≤ 2000 }
    ensures value { result ≡ answer_as accepted (strict_lines (map fields_of (in_turn cards.entry))) (length out.old) }
    ensures out_after { out.new ≡ written_as accepted (strict_lines (map fields_of (in_turn cards.entry))) out.old }
{
    let mut line = [0u8; 256];
    let size = strict_lines::text_size(cards, &mut line);
    if out.len() < size {
        return Err(SentBack {
            refusal: Refusal::Room,
            place: 0,
        });
    }
    strict_lines::put_lines(cards, &mut line, out);
    Ok(size)
}

// What the writer makes of a register before it writes: its length is looked at first, then its version, which must be 1, and then
// the register as a whole.
#[tactic(auto, unfolding(crate::specs::Writing::writable, crate::specs::Writing::other_version))]
fn writable(register: &[u8]) -> Result<Leaders, SentBack<u32>>
    ensures { result ≡ writable register.now }
{
    if header::bad_length(register) {
        return Err(Refusal::Length.into());
    }
    if buffer::byte(register, 4) != 1 {
        return Err(Refusal::Version.into());
    }
    register::outcome_of(register, header::ENOUGH)
}

// Writes a register as comma lines. A register that is sent back and too short a buffer leave every byte as it was, and so do
// the bytes behind the text always.
#[tactic(auto, using(crate::proofs::Ends::taken_whole, crate::proofs::Ends::taken_count, crate::proofs::Ends::text_is), unfolding(crate::specs::Writing::writing_of, crate::specs::Writing::write_into))]
pub fn write(register: &[u8], out: &mut [u8]) -> Result<usize, SentBack<usize>>
    ensures value { result ≡ writing_of register.now (length out.old) }
    ensures out_after { out.new ≡ write_into register.now out.old }
{
    writable(register)?;
    write_cards(header::cards_of(register), out)
}
