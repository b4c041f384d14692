// The listing of a question for a likely scenario: one line, its answer or why it is sent back.
#![tactic(auto)]

ghost use Rattle.std.specs.Prelude.{◌≡◌, ◌+◌, ◌≤◌, length};
ghost use Rattle.buffer.specs.Wrote.{Wrote};
ghost use Rattle.buffer.specs.Puts.{Room, Puts};
ghost use Rattle.comma.specs.Text.{card_bytes};
ghost use Rattle.likely_laws.specs.Numbers.{AnswerCarries};
ghost use Rattle.likely_listing.specs.LikelyListing.{answer_line, question_line, likely_listing};

use buffer::Writer;
use fields::Fields;
use likely_scenario::LikelyScenario;
use question::Question;
use refusals::Refusal;

// The longest text that is looked at: a comma line and the two numbers before it have room in it many times over.
const LONGEST: usize = 1_000;

// The 24 bytes of a card.
#[tactic(auto, unfolding(comma::specs::Text::card_bytes, buffer::specs::Numbers::two_bytes, buffer::specs::Numbers::four_bytes))]
fn card_of(card: Fields) -> [u8; 24]
    ensures { result ≡ card_bytes card }
{
    let mut bytes = [0; 24];
    let mut written = Writer {
        bytes: &mut bytes,
        at: 0,
    };
    register_bytes::put_card(&mut written, card);
    bytes
}

// The line of an answer.
fn put_answer(out: &mut Writer, answer: Result<LikelyScenario, Refusal>)
    requires { Room out.old 128 × AnswerCarries answer }
    ensures wrote { Puts out.old out.new (answer_line answer) }
    ensures upper_bound { out.new.at ≤ out.old.at + 128 }
{
    match answer {
        Ok(scenario) => likely_line::put_scenario(out, scenario),
        Err(refusal) => closing::put_refused(out, u8::from(refusal), 0),
    }
}

// The line of a question.
fn put_question(out: &mut Writer, question: Option<Question>)
    requires { Room out.old 128 }
    ensures wrote { Puts out.old out.new (question_line question) }
    ensures upper_bound { out.new.at ≤ out.old.at + 128 }
{
    let Some(asked) = question else {
        closing::put_refused(out, u8::from(Refusal::Line), 1);
        return;
    };
    let card = card_of(asked.card);
    let answer = likely_scenario::likely_of(&card, asked.rate as u64, asked.minutes);
    put_answer(out, answer);
}

// The listing of any text, at the start of a lent buffer; behind it the buffer stays as it was.
#[tactic(auto, unfolding(crate::specs::LikelyListing::likely_listing))]
pub fn list(text: &[u8], out: &mut [u8; 128]) -> usize
    ensures wrote { Wrote out.old out.new 0 result (likely_listing text.now) }
    ensures upper_bound { result ≤ length out.new }
{
    let mut line = Writer { bytes: out, at: 0 };
    if LONGEST < text.len() {
        closing::put_too_long(&mut line);
    } else {
        put_question(&mut line, question::question_of(text));
    }
    line.at
}
