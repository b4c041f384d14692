// The reader of comma lines: from a text into a lent version 1 register. Each line is looked at twice, once to find the first
// that is not well formed and to count them, and once to write the cards.
#![tactic(auto)]

ghost use Rattle.std.specs.Prelude.{Ok, ◌≡◌, ◌+◌, ◌*◌, ◌≤◌, length};
ghost use Rattle.comma.specs.Text.{cards_in, reading_of, read_into};
ghost use Rattle.count_lines.specs.Count.{count_from};
ghost use Rattle.read_lines.specs.Walk.{laid_from};

use buffer::Writer;
use count_lines::Lines;
use refusals::{Refusal, SentBack};

// The second walk: the cards, one behind the other. It stops at a line that has none, which the first walk rules out.
fn put_cards(text: &[u8], count: usize, out: &mut [u8])
    requires { (count_from 0 (cards_in text.now) ≡ Ok count) × (count ≤ 2000) × (7 + 24 * count ≤ length out.old) }
    ensures { out.new ≡ laid_from 7 (cards_in text.now) out.old }
{
    for (place, line) in (0..count).zip(Lines::of(text)) {
        let Some(fields) = read_line::line_of(line) else {
            return;
        };
        let mut card = Writer {
            bytes: out,
            at: 7 + 24 * place,
        };
        register_bytes::put_card(&mut card, fields);
    }
}

// Reads comma lines into a register. A text with a line that is not well formed, too many lines or too short a buffer leaves
// every byte as it was, and so do the bytes behind the register always.
#[tactic(auto, unfolding(comma::specs::Text::reading_of, comma::specs::Text::read_into, comma::specs::Text::bad_room), using(crate::proofs::Ends::register_written))]
pub fn read(text: &[u8], out: &mut [u8]) -> Result<usize, SentBack<usize>>
    ensures value { result ≡ reading_of text.now (length out.old) }
    ensures out_after { out.new ≡ read_into text.now out.old }
{
    let lines = count_lines::count_lines(text);
    let count = lines.map_err(|place| SentBack {
        refusal: Refusal::Line,
        place,
    })?;
    if header::MOST_CARDS < count || out.len() < 7 + 24 * count {
        return Err(SentBack {
            refusal: Refusal::Room,
            place: 0,
        });
    }
    let mut header = Writer { bytes: out, at: 0 };
    register_bytes::put_header(&mut header, count);
    put_cards(text, count, out);
    Ok(7 + 24 * count)
}
