// The words of the C interface: what an outcome or a conversion is told by.
#![tactic(auto)]

ghost use Rattle.std.specs.Prelude.{◌≡◌};
ghost use Rattle.card.specs.declared.Class.TheVariants.{Toxic, Flammable};
ghost use Rattle.words.specs.Words.{word_of, refusal_code, code_of, word_after, day_after, conversion_code, conversion_at};
ghost use Rattle.by_day.specs.Year.{leaders_told};

use by_day::Year;
use farthest::{Leader, Leaders};
use refusals::{Refusal, SentBack};

// A farthest card as a word: 0 for none, else its number above sixteen bits of hundredths of a mile.
#[tactic(auto, unfolding(crate::specs::Words::word_of))]
fn word_of(leader: Option<Leader>) -> u64
    ensures { result ≡ word_of leader }
{
    let Some(Leader { number, distance }) = leader else {
        return 0;
    };
    number as u64 * 65_536 + dispersion::hundredths(distance) as u64
}

// A refusal as a word: its number above thirty-two bits of place.
pub fn code_of(refusal: Refusal, place: u32) -> u64
    ensures { result ≡ refusal_code refusal place }
{
    let number = u8::from(refusal) as u64;
    number * 4_294_967_296 + place as u64
}

// An outcome by words: on acceptance 0 and the two farthest cards, on a refusal its word, and the two are left alone.
#[tactic(auto, unfolding(crate::specs::Words::code_of, crate::specs::Words::word_after))]
pub fn tell(outcome: Result<Leaders, SentBack<u32>>, toxic: &mut u64, flammable: &mut u64) -> u64
    ensures value { result ≡ code_of outcome }
    ensures toxic_after { toxic.new ≡ word_after Toxic outcome toxic.old }
    ensures flammable_after { flammable.new ≡ word_after Flammable outcome flammable.old }
{
    match outcome {
        Ok(leaders) => {
            *toxic = word_of(leaders.toxic);
            *flammable = word_of(leaders.flammable);
            0
        }
        Err(SentBack { refusal, place }) => code_of(refusal, place),
    }
}

// The year by words: those of an outcome, and the earliest day of each class, which a refusal leaves alone as well.
#[tactic(auto, unfolding(crate::specs::Words::day_after))]
pub fn tell_year(
    found: Result<Year, SentBack<u32>>,
    toxic: &mut u64,
    flammable: &mut u64,
    toxic_day: &mut u64,
    flammable_day: &mut u64,
) -> u64
    ensures value { result ≡ code_of (leaders_told found) }
    ensures toxic_after { toxic.new ≡ word_after Toxic (leaders_told found) toxic.old }
    ensures flammable_after { flammable.new ≡ word_after Flammable (leaders_told found) flammable.old }
    ensures toxic_day_after { toxic_day.new ≡ day_after Toxic found toxic_day.old }
    ensures flammable_day_after { flammable_day.new ≡ day_after Flammable found flammable_day.old }
{
    match found {
        Ok(year) => {
            *toxic_day = year.toxic_day as u64;
            *flammable_day = year.flammable_day as u64;
            tell(Ok(year.leaders), toxic, flammable)
        }
        Err(sent) => tell(Err(sent), toxic, flammable),
    }
}

// What a conversion returns: 0, or the number of its refusal.
#[tactic(auto, unfolding(crate::specs::Words::conversion_code))]
pub fn conversion_code(converted: Result<usize, SentBack<usize>>) -> u64
    ensures { result ≡ conversion_code converted }
{
    match converted {
        Ok(_) => 0,
        Err(sent) => u8::from(sent.refusal) as u64,
    }
}

// The word beside it: how many bytes were written, or the place of the refusal.
#[tactic(auto, unfolding(crate::specs::Words::conversion_at))]
pub fn conversion_at(converted: Result<usize, SentBack<usize>>) -> u64
    ensures { result ≡ conversion_at converted }
{
    match converted {
        Ok(size) => size as u64,
        Err(sent) => sent.place as u64,
    }
}

// An edit by the same two words: how long the register now is, or the place of the refusal, stands beside the result.
pub fn tell_edit(edited: Result<usize, SentBack<u32>>, at: &mut u64) -> u64
    ensures value { result ≡ conversion_code edited }
    ensures at_after { at.new ≡ conversion_at edited }
{
    let converted = edited.map_err(SentBack::<usize>::from);
    *at = conversion_at(converted);
    conversion_code(converted)
}
