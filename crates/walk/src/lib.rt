// The walk over a register's cards that writes: it takes a step for each card and writes what it is asked to write of it. Who answers a
// register, who only asks about it, who lists it and who wants the leaders after some of its cards all go by it.
#![tactic(auto)]

ghost use Rattle.std.specs.Prelude.{◌≡◌, ℕ, ◌+◌, ◌*◌, ◌≤◌, List, length};
ghost use Rattle.std.proofs.lemmas.List.Edits.{sets};
ghost use Rattle.buffer.specs.Puts.{Room, Puts};
ghost use Rattle.card.specs.declared.Answer.{Answer};
ghost use Rattle.encode.specs.Bytes.{answer_bytes};
ghost use Rattle.header.specs.InTurn.{in_turn};
ghost use Rattle.lines.specs.Lines.{card_line};
ghost use Rattle.running.specs.Running.{before_cards};
ghost use Rattle.walk.specs.Walk.{nothing_of, walk_from, text_from, Within};

use buffer::Writer;
use card::Answer;
use header::Cards;
use refusals::SentBack;
use running::Running;

// What a walk writes of each card: these bytes, of which there are at most so many.
pub trait Writes {
    ghost text: { Answer → List ℕ };

    ghost most: { ℕ };

    fn put(out: &mut Writer, answer: Answer)
        requires { Room out.old most }
        ensures wrote { Puts out.old out.new (text answer) }
        ensures upper_bound { out.new.at ≤ out.old.at + most };
}

// Nothing is written.
#[derive(Clone, Copy)]
pub struct Nothing;

impl Writes for Nothing {
    ghost text = { nothing_of };

    ghost most = { 0 };

    fn put(_out: &mut Writer, _answer: Answer) {}
}

// A card's sixteen bytes of the answer buffer.
#[derive(Clone, Copy)]
pub struct Answers;

impl Writes for Answers {
    ghost text = { answer_bytes };

    ghost most = { 16 };

    fn put(out: &mut Writer, answer: Answer) {
        encode::put_answer(out, answer);
    }
}

// A card's line of a listing.
#[derive(Clone, Copy)]
pub struct Lines;

impl Writes for Lines {
    ghost text = { card_line };

    ghost most = { 128 };

    fn put(out: &mut Writer, answer: Answer) {
        lines::put_card_line(out, answer);
    }
}

// The walk over these cards, from the running values on: the running values behind them, and how many bytes were written. It stops
// at the first card that is refused.
pub fn along<W: Writes>(
    cards: Cards,
    from: Running,
    out: &mut [u8],
) -> Result<(Running, usize), SentBack<u32>>
    requires { (from.place + length (in_turn cards) ≤ 2000) × (W.most * length (in_turn cards) ≤ length out.old) }
    ensures value { result ≡ walk_from W.text from 0 (in_turn cards.entry) }
    ensures out_after { out.new ≡ sets out.old 0 (text_from W.text from (in_turn cards.entry)) }
    ensures within { Within (W.most * length (in_turn cards.entry)) result }
{
    let mut running = from;
    let mut written = Writer { bytes: out, at: 0 };
    for place in 0..cards.len() {
        match running::step(running, cards.at(place)) {
            Ok((next, answer)) => {
                W::put(&mut written, answer);
                running = next;
            }
            // not by `?`: in a generic function the check does not see that it hands the error on as it is
            Err(sent) => return Err(sent),
        }
    }
    Ok((running, written.at))
}

// The walk through all cards of a register.
pub fn through<W: Writes>(cards: Cards, out: &mut [u8]) -> Result<(Running, usize), SentBack<u32>>
    requires { (length (in_turn cards) ≤ 2000) × (W.most * length (in_turn cards) ≤ length out.old) }
    ensures value { result ≡ walk_from W.text before_cards 0 (in_turn cards.entry) }
    ensures out_after { out.new ≡ sets out.old 0 (text_from W.text before_cards (in_turn cards.entry)) }
    ensures within { Within (W.most * length (in_turn cards.entry)) result }
{
    along::<W>(cards, running::start(), out)
}
