// A register's cards, walked in turn and answered into the lent buffer, and the distances that its header stores.
#![tactic(auto)]

ghost use Rattle.std.specs.Prelude.{◌≡◌, ◌*◌, ◌≤◌, length};
ghost use Rattle.header.specs.InTurn.{in_turn};
ghost use Rattle.cards.specs.Distances.{distance_in, distances_of, wrong_for, held_to};
ghost use Rattle.cards.specs.Register.{cards_from, settled, result_of, filled_with};

use buffer::Writer;
use farthest::{Leader, Leaders};
use header::{Cards, Stored};
use refusals::{Refusal, SentBack};
use walk::Answers;

// The distance of a farthest card, 0 for none.
fn distance_in(leader: Option<Leader>) -> u16
    ensures { result ≡ distance_in leader }
{
    match leader {
        Some(lead) => dispersion::hundredths(lead.distance),
        None => 0,
    }
}

// The two distances that a header stores of a register with these leaders.
pub fn distances_of(leaders: Leaders) -> Stored
    ensures { result ≡ distances_of leaders }
{
    Stored {
        toxic: distance_in(leaders.toxic),
        flammable: distance_in(leaders.flammable),
    }
}

// Both farthest of cards that have all passed, as a call's answer: a wrong distance in the header is found last.
#[tactic(auto, unfolding(crate::specs::Distances::wrong_for, crate::specs::Distances::held_to))]
pub fn held_to(stored: Option<Stored>, leaders: Leaders) -> Result<Leaders, SentBack<u32>>
    ensures { result ≡ held_to stored leaders }
{
    match stored {
        Some(distances) if distances != distances_of(leaders) => Err(Refusal::Count.into()),
        _ => Ok(leaders),
    }
}

// The cards are walked once, into a buffer that nobody but the caller sees, and what it holds is copied where no card was refused and
// no wrong distance is stored: so everything is checked before a byte of the lent buffer is written.
pub fn answer_through(
    cards: Cards,
    stored: Option<Stored>,
    scratch: &mut [u8],
    answers: &mut [u8],
) -> Result<Leaders, SentBack<u32>>
    requires { (length (in_turn cards) ≤ 2000) × (16 * length (in_turn cards) ≤ length scratch.old) × (16 * length (in_turn cards) ≤ length answers.old) }
    ensures value { result ≡ result_of (settled stored (cards_from 0 0 (in_turn cards.entry))) }
    ensures answers_after { answers.new ≡ filled_with (settled stored (cards_from 0 0 (in_turn cards.entry))) answers.old }
{
    let (running, size) = walk::through::<Answers>(cards, scratch)?;
    let leaders = held_to(stored, running.leaders)?;
    let mut written = Writer {
        bytes: answers,
        at: 0,
    };
    buffer::put_text(&mut written, &scratch[..size]);
    Ok(leaders)
}
