// The strict lines of a register's cards: how long they are, and each behind the one before it into a lent buffer.
#![tactic(auto)]

ghost use Rattle.std.specs.Prelude.{◌≡◌, ◌≤◌, [], ◌∷◌, ◌++◌, map, length};
ghost use Rattle.std.proofs.lemmas.List.Edits.{sets};
ghost use Rattle.buffer.specs.Wrote.{Wrote};
ghost use Rattle.fields.specs.Layout.{fields_of};
ghost use Rattle.header.specs.InTurn.{in_turn};
ghost use Rattle.comma.specs.Strict.{strict_line, strict_lines};

use buffer::Writer;
use header::Cards;

// The line of a card, at the start of a buffer of the writer's own; how long it is.
fn line_of(card: &[u8], line: &mut [u8]) -> usize
    requires { 256 ≤ length line.old }
    ensures wrote { Wrote line.old line.new 0 result (strict_line (fields_of card.now) ++ (10 ∷ [])) }
    ensures upper_bound { result ≤ 256 }
{
    let mut written = Writer { bytes: line, at: 0 };
    strict_line::put_line(&mut written, fields::fields_of(card));
    written.at
}

// How long the text is.
pub fn text_size(cards: Cards, line: &mut [u8]) -> usize
    requires { (length (in_turn cards) ≤ 2000) × (256 ≤ length line.old) }
    ensures { result ≡ length (strict_lines (map fields_of (in_turn cards.entry))) }
{
    let mut size = 0usize;
    for place in 0..cards.len() {
        size += line_of(cards.at(place), line);
    }
    size
}

// The lines one behind the other, where there is room for all.
pub fn put_lines(cards: Cards, line: &mut [u8], out: &mut [u8])
    requires { (length (in_turn cards) ≤ 2000) × (256 ≤ length line.old) × (length (strict_lines (map fields_of (in_turn cards))) ≤ length out.old) }
    ensures { out.new ≡ sets out.old 0 (strict_lines (map fields_of (in_turn cards.entry))) }
{
    let mut written = Writer { bytes: out, at: 0 };
    for place in 0..cards.len() {
        let size = line_of(cards.at(place), line);
        buffer::put_text(&mut written, &line[..size]);
    }
}
