// A register: its cards checked in turn, then answered into the lent buffer.
#![tactic(auto)]

ghost use Rattle.std.specs.Prelude.{◌≡◌, ◌*◌, ◌≤◌, length};
ghost use Rattle.header.specs.InTurn.{in_turn};
ghost use Rattle.cards.specs.Register.{cards_from, settled, result_of, filled_with, outcome_of, buffer_of};

use farthest::Leaders;
use header::{Cards, Stored};
use refusals::SentBack;
use walk::Nothing;

// The answers of a register's cards, by way of a buffer of this length.
fn answer_by<const ROOM: usize>(
    cards: Cards,
    stored: Option<Stored>,
    answers: &mut [u8],
) -> Result<Leaders, SentBack<u32>>
    requires { (16 * length (in_turn cards) ≤ ROOM) × (ROOM ≤ 32_000) × (length (in_turn cards) ≤ 2000) × (16 * length (in_turn cards) ≤ length answers.old) }
    ensures value { result ≡ result_of (settled stored (cards_from 0 0 (in_turn cards.entry))) }
    ensures answers_after { answers.new ≡ filled_with (settled stored (cards_from 0 0 (in_turn cards.entry))) answers.old }
{
    let mut scratch = [0u8; ROOM];
    cards::answer_through(cards, stored, &mut scratch, answers)
}

// A short register has a short buffer: to clear the long one, with room for as many cards as a register may have, costs about as
// much as four cards.
fn answer_all(
    cards: Cards,
    stored: Option<Stored>,
    answers: &mut [u8],
) -> Result<Leaders, SentBack<u32>>
    requires { (length (in_turn cards) ≤ 2000) × (16 * length (in_turn cards) ≤ length answers.old) }
    ensures value { result ≡ result_of (settled stored (cards_from 0 0 (in_turn cards.entry))) }
    ensures answers_after { answers.new ≡ filled_with (settled stored (cards_from 0 0 (in_turn cards.entry))) answers.old }
{
    if cards.len() <= 1 {
        return answer_by::<16>(cards, stored, answers);
    }
    if cards.len() <= 64 {
        return answer_by::<1_024>(cards, stored, answers);
    }
    answer_by::<32_000>(cards, stored, answers)
}

// The call that everyone uses: a register and a lent answer buffer. Every card is checked before a byte is written.
pub fn fill(register: &[u8], answers: &mut [u8]) -> Result<Leaders, SentBack<u32>>
    ensures value { result ≡ outcome_of register.now (length answers.old) }
    ensures answers_after { answers.new ≡ buffer_of register.now answers.old }
{
    header::header_of(register, answers.len())?;
    answer_all(
        header::cards_of(register),
        header::stored_of(register),
        answers,
    )
}

// The walk that only asks writes nothing.
fn ask(cards: Cards, stored: Option<Stored>) -> Result<Leaders, SentBack<u32>>
    requires { length (in_turn cards) ≤ 2000 }
    ensures { result ≡ result_of (settled stored (cards_from 0 0 (in_turn cards.entry))) }
{
    let (running, _) = walk::through::<Nothing>(cards, &mut [])?;
    cards::held_to(stored, running.leaders)
}

// What the call would answer with a buffer of this length, and no byte is written: what a reader asks who lists a register.
pub fn outcome_of(register: &[u8], room: usize) -> Result<Leaders, SentBack<u32>>
    ensures { result ≡ outcome_of register.now room }
{
    header::header_of(register, room)?;
    ask(header::cards_of(register), header::stored_of(register))
}
