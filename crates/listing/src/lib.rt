// The listing of a register: a line for each card, then the farthest card of each class; or the one line that says why
// there is none.
#![tactic(auto)]

ghost use Rattle.std.specs.Prelude.{◌≡◌, ◌+◌, ◌≤◌, length};
ghost use Rattle.buffer.specs.Wrote.{Wrote};
ghost use Rattle.buffer.specs.Puts.{Room, Puts};
ghost use Rattle.header.specs.Header.{enough, header_of};
ghost use Rattle.cards.specs.Register.{outcome_of};
ghost use Rattle.listing.specs.Listing.{leader_lines, listed_after, listing_room, listed_of, listed_into, Within};
ghost use Rattle.listing.specs.Laws.{IsAccepted};

use buffer::Writer;
use farthest::Leaders;
use refusals::SentBack;
use walk::Lines;

// The longest register that can be accepted: 2,000 cards with their seasons.
const LONGEST: usize = 56_011;

// A buffer in which every listing has room: 128 bytes for a card's line, and 256 for the leaders.
const ROOM: usize = 256_256;

// The lines of both classes, behind the cards.
fn put_leaders(out: &mut Writer, leaders: Leaders)
    requires { Room out.old 128 }
    ensures wrote { Puts out.old out.new (leader_lines leaders) }
    ensures upper_bound { out.new.at ≤ out.old.at + 128 }
{
    closing::put_leader(out, b'T', leaders.toxic);
    closing::put_leader(out, b'F', leaders.flammable);
}

// The listing of a register that is accepted: one walk writes a line for each card and keeps the leaders. That it stops at no card
// the outcome told before.
fn put_accepted(register: &[u8], out: &mut [u8; ROOM]) -> usize
    requires { IsAccepted (outcome_of register.now enough) }
    ensures wrote { Wrote out.old out.new 0 result (listed_after (header_of register.now enough) register.now) }
    ensures upper_bound { result ≤ listing_room }
{
    let cards = header::cards_of(register);
    let Ok((running, behind)) = walk::through::<Lines>(cards, out) else {
        return 0;
    };
    let mut lines = Writer {
        bytes: out,
        at: behind,
    };
    put_leaders(&mut lines, running.leaders);
    lines.at
}

// The listing of a register that is not too long.
fn put_listing(register: &[u8], out: &mut [u8; ROOM]) -> usize
    ensures wrote { Wrote out.old out.new 0 result (listed_after (header_of register.now enough) register.now) }
    ensures upper_bound { result ≤ listing_room }
{
    match register::outcome_of(register, header::ENOUGH) {
        Ok(_) => put_accepted(register, out),
        Err(SentBack { refusal, place }) => {
            let mut line = Writer { bytes: out, at: 0 };
            closing::put_refused(&mut line, u8::from(refusal), place);
            line.at
        }
    }
}

// The listing of any bytes at the start of a lent buffer, and how many bytes it takes. A buffer in which some listing has no room is
// left as it was, and none is answered.
pub fn list(register: &[u8], out: &mut [u8]) -> Option<usize>
    ensures value { result ≡ listed_of register.now (length out.old) }
    ensures out_after { out.new ≡ listed_into register.now out.old }
    ensures within { Within (length out.new) result }
{
    let Some(front) = out.first_chunk_mut::<ROOM>() else {
        return None;
    };
    if LONGEST < register.len() {
        let mut line = Writer {
            bytes: front,
            at: 0,
        };
        closing::put_too_long(&mut line);
        return Some(line.at);
    }
    Some(put_listing(register, front))
}
