// A walk over a register's cards that writes nothing and keeps a value of its own beside the running ones: what a reader asks of the
// cards who does not want them answered one by one.
#![tactic(auto)]

ghost use Rattle.std.specs.Prelude.{◌≡◌, ◌≤◌, length};
ghost use Rattle.card.specs.declared.Answer.{Answer};
ghost use Rattle.running.specs.Running.{before_cards};
ghost use Rattle.header.specs.InTurn.{in_turn};
ghost use Rattle.tally.specs.Tally.{kept_from};

use card::Answer;
use header::Cards;
use refusals::SentBack;
use running::Running;

// What a walk keeps: its value after one card more.
pub trait Keeps: Copy {
    ghost after: { Self → Answer → Self };

    fn keep(self, answer: Answer) -> Self
        ensures { result ≡ after self answer };
}

// The walk through all cards of a register, from a value on: the running values and the one that is kept, behind the last card. It stops
// at the first card that is refused.
pub fn through<K: Keeps>(cards: Cards, from: K) -> Result<(Running, K), SentBack<u32>>
    requires { length (in_turn cards) ≤ 2000 }
    ensures { result ≡ kept_from K.after before_cards from (in_turn cards.entry) }
{
    let mut running = running::start();
    let mut kept = from;
    for place in 0..cards.len() {
        match running::step(running, cards.at(place)) {
            Ok((next, answer)) => {
                kept = kept.keep(answer);
                running = next;
            }
            // not by `?`: in a generic function the check does not see that it hands the error on as it is
            Err(sent) => return Err(sent),
        }
    }
    Ok((running, kept))
}
