// The running values of a walk over a register's cards, and the step to one card more. Every walk goes by this step.
#![tactic(auto)]

ghost use Rattle.std.specs.Prelude.{◌≡◌, ◌<◌};
ghost use Rattle.running.specs.Running.{before_cards, step_of};

use card::Answer;
use farthest::Leaders;
use refusals::SentBack;

// The running values: the farthest card of each class so far, the last card's number, and the place of the next card.
#[derive(Clone, Copy)]
pub struct Running {
    pub leaders: Leaders,
    pub last: u32,
    pub place: usize,
}

// The running values before the first card.
pub fn start() -> Running
    ensures { result ≡ before_cards }
{
    Running {
        leaders: farthest::no_leaders(),
        last: 0,
        place: 0,
    }
}

// One card more: the running values after it, and what it answers; or why it is sent back, and its place.
#[tactic(auto, unfolding(crate::specs::Running::step_of))]
pub fn step(running: Running, card: &[u8]) -> Result<(Running, Answer), SentBack<u32>>
    requires { running.place < 2000 }
    ensures { result ≡ step_of running card.now }
{
    let place = running.place as u32;
    let answer = card::answer_of(card, running.last).map_err(|refusal| SentBack {
        refusal,
        place,
    })?;
    let next = Running {
        leaders: farthest::lead(running.leaders, answer),
        last: answer.number,
        place: running.place + 1,
    };
    Ok((next, answer))
}
