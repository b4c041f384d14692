// A question for a likely scenario, as a text: the supplied rate and minutes, and a comma line with the card.
#![tactic(auto)]

ghost use Rattle.std.specs.Prelude.{◌≡◌};
ghost use Rattle.question.specs.Question.{asked_in, question_in};

use fields::Fields;
use read_number::FourBytes;

// What is asked: a rate in thousandths of a pound per minute, whole minutes and a card's fields.
#[derive(Clone, Copy)]
pub struct Question {
    pub rate: u32,
    pub minutes: u32,
    pub card: Fields,
}

// The question of a line, without its line feed.
#[tactic(auto, unfolding(crate::specs::Question::asked_in))]
fn asked_in(line: &[u8]) -> Option<Question>
    ensures { result ≡ asked_in line.now }
{
    let (rate, rest) = read_field::take_field::<FourBytes>(line)?;
    let (minutes, rest) = read_field::take_field::<FourBytes>(rest)?;
    let card = read_line::line_of(rest)?;
    Some(Question {
        rate,
        minutes,
        card,
    })
}

// The question of a text, which is one line; a line feed may end it. None where it is not well formed.
#[tactic(auto, using(crate::proofs::Ends::two_lines, crate::proofs::Ends::one_line_lem))]
pub fn question_of(text: &[u8]) -> Option<Question>
    ensures { result ≡ question_in text.now }
{
    let end = pieces::end_of(text, b'\n');
    if end + 1 < text.len() {
        return None;
    }
    asked_in(&text[..end])
}
