// The farthest cards of a day, among those in force on it, and of the year, with the earliest day on which they are as far.
#![tactic(auto)]

ghost use Rattle.std.specs.Prelude.{◌≡◌, ◌≤◌, length};
ghost use Rattle.header.specs.InTurn.{in_turn};
ghost use Rattle.cards.specs.Register.{cards_from, settled};
ghost use Rattle.by_day.specs.Day.{day_of};
ghost use Rattle.by_day.specs.Year.{year_of};
ghost use Rattle.by_day.specs.Kept.{today_after, day_after, year_after, kept_result, kept_of};

use card::{Answer, Class};
use farthest::{Leader, Leaders};
use header::{Cards, Stored};
use refusals::{Refusal, SentBack};
use tally::Keeps;

// The farthest card of each class over the year, and the earliest day whose farthest has its distance: day 0 for a class without cards.
#[derive(Clone, Copy)]
pub struct Year {
    pub leaders: Leaders,
    pub toxic_day: u16,
    pub flammable_day: u16,
}

// The farthest cards of a day so far.
#[derive(Clone, Copy)]
struct Today {
    day: u32,
    leaders: Leaders,
}

impl Keeps for Today {
    ghost after = { today_after };

    #[tactic(auto, unfolding(crate::specs::Kept::today_after))]
    fn keep(self, answer: Answer) -> Today {
        if !seasons::in_force(answer.season, self.day) {
            return self;
        }
        Today {
            leaders: farthest::lead(self.leaders, answer),
            ..self
        }
    }
}

// The earliest day of a class after one more card of it: the card's own where it is the farthest, the earlier of the two where it is as
// far as the one that leads.
#[tactic(auto, unfolding(crate::specs::Kept::day_after))]
fn day_after(leader: Option<Leader>, day: u16, answer: Answer) -> u16
    ensures { result ≡ day_after leader day answer }
{
    let own = seasons::first_day(answer.season);
    match leader {
        Some(best) if answer.distance < best.distance => day,
        Some(best) if answer.distance == best.distance => day.min(own),
        _ => own,
    }
}

impl Keeps for Year {
    ghost after = { year_after };

    #[tactic(auto, unfolding(crate::specs::Kept::year_after))]
    fn keep(self, answer: Answer) -> Year {
        let leaders = farthest::lead(self.leaders, answer);
        match answer.class {
            Class::Toxic => Year {
                leaders,
                toxic_day: day_after(self.leaders.toxic, self.toxic_day, answer),
                ..self
            },
            Class::Flammable => Year {
                leaders,
                flammable_day: day_after(self.leaders.flammable, self.flammable_day, answer),
                ..self
            },
        }
    }
}

// What a walk keeps of a register's cards: each of them is answered, and no wrong distance is stored.
fn kept_through<K: Keeps>(cards: Cards, stored: Option<Stored>, from: K) -> Result<K, SentBack<u32>>
    requires { length (in_turn cards) ≤ 2000 }
    ensures { result ≡ kept_result K.after from (settled stored (cards_from 0 0 (in_turn cards.entry))) }
{
    // not by `?`: in a generic function the check does not see that it hands the error on as it is
    let (running, kept) = match tally::through(cards, from) {
        Ok(both) => both,
        Err(sent) => return Err(sent),
    };
    match cards::held_to(stored, running.leaders) {
        Ok(_) => Ok(kept),
        Err(sent) => Err(sent),
    }
}

// What a walk keeps of a register, or the register's refusal. No answer buffer is lent, so that none is too short.
fn kept_of<K: Keeps>(register: &[u8], from: K) -> Result<K, SentBack<u32>>
    ensures { result ≡ kept_of K.after from register.now }
{
    match header::header_of(register, header::ENOUGH) {
        Err(refusal) => Err(refusal.into()),
        Ok(_) => kept_through(
            header::cards_of(register),
            header::stored_of(register),
            from,
        ),
    }
}

// The farthest card of each class among those in force on a day. The register is accepted before the day is looked at.
#[tactic(auto, using(crate::proofs::Days::day_is))]
pub fn farthest_on(register: &[u8], day: u32) -> Result<Leaders, SentBack<u32>>
    ensures { result ≡ day_of register.now day }
{
    let before = Today {
        day,
        leaders: farthest::no_leaders(),
    };
    let today = kept_of(register, before)?;
    if seasons::bad_day(day) {
        return Err(Refusal::Day.into());
    }
    Ok(today.leaders)
}

// The farthest card of each class over the year, and its earliest day. The cards are walked once, whatever the number of days: a card
// that leads is first in force on the first day of its season, so that no day has to be tried.
#[tactic(auto, using(crate::proofs::Years::year_is))]
pub fn year_of(register: &[u8]) -> Result<Year, SentBack<u32>>
    ensures { result ≡ year_of register.now }
{
    let before = Year {
        leaders: farthest::no_leaders(),
        toxic_day: 0,
        flammable_day: 0,
    };
    kept_of(register, before)
}
