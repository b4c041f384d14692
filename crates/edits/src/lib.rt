// Edits of a register: a card added, replaced or withdrawn by its number. What an edit is, and the stages before a byte of the lent
// buffer changes: the register that the buffer starts with, the cards around a number, what is in the way, and a register's bytes.
#![tactic(auto)]

ghost use Rattle.std.specs.Prelude.{◌≡◌, ◌+◌, ◌*◌, ◌≤◌, ◌++◌, map, length};
ghost use Rattle.std.specs.List.{concat};
ghost use Rattle.buffer.specs.Puts.{Room, Puts};
ghost use Rattle.header.specs.Header.{size_of};
ghost use Rattle.header.specs.InTurn.{in_turn};
ghost use Rattle.seasons.specs.Seasons.{grown, Given};
ghost use Rattle.edits.specs.Edits.{card_number, below, above, bad_presence, bad_capacity, header_bytes, held, edit_layout};
ghost use Rattle.edits.specs.Around.{AllPass, AllGiven, place_of, named_in};

use buffer::Writer;
use header::{Cards, Stored};

// The version that an edit makes.
const VERSION: u8 = 3;

// The register that a buffer starts with: as many bytes as its length field says, or all there are.
#[tactic(auto, unfolding(crate::specs::Edits::held))]
pub fn held(buffer: &[u8]) -> &[u8]
    ensures { result.now ≡ held buffer.now }
{
    let field = buffer::four(buffer, 0) as usize;
    &buffer[..field.min(buffer.len())]
}

// A card goes by its own number.
pub fn number_of(card: &[u8]) -> u32
    ensures { result ≡ card_number card.now }
{
    buffer::four(card, 20)
}

// How many cards stand before the first number that is not below this one.
fn place_of(cards: Cards, number: u32) -> usize
    ensures { result ≡ place_of number (in_turn cards.entry) }
{
    for place in 0..cards.len() {
        if number <= number_of(cards.at(place)) {
            return place;
        }
    }
    cards.len()
}

// How many cards of a number stand in front, of cards whose numbers rise: one or none.
#[tactic(auto, using(crate::proofs::Cut::named_empty, crate::proofs::Cut::named_one, crate::proofs::Cut::named_other))]
fn named_in(cards: Cards, number: u32) -> usize
    ensures { result ≡ named_in number (in_turn cards.entry) }
{
    if cards.len() == 0 {
        return 0;
    }
    if number_of(cards.at(0)) == number {
        1
    } else {
        0
    }
}

// Cards around a number: those in front of it, the one that is named and those behind, which are all. Where the numbers rise they are the
// lower ones, the one of that number if it is there, and the higher ones.
#[tactic(auto, using(crate::proofs::Cut::place_within, crate::proofs::Cut::named_within, crate::proofs::Cut::all_parts, crate::proofs::Cut::low_is, crate::proofs::Cut::high_is))]
pub fn around(cards: Cards, number: u32) -> (Cards, Cards, Cards)
    ensures all { in_turn result.0 ++ (in_turn result.1 ++ in_turn result.2) ≡ in_turn cards.entry }
    ensures low { AllPass (in_turn cards.entry) → in_turn result.0 ≡ below number (in_turn cards.entry) }
    ensures high { AllPass (in_turn cards.entry) → in_turn result.2 ≡ above number (in_turn cards.entry) }
{
    let (front, rest) = cards.split_at(place_of(cards, number));
    let (named, behind) = rest.split_at(named_in(rest, number));
    (front, named, behind)
}

// The bytes of a register of the version that an edit makes, with so many cards.
pub fn size_of(count: usize) -> usize
    requires { count ≤ 2_001 }
    ensures { result ≡ size_of edit_layout count }
{
    header::THIRD.header + header::THIRD.card * count
}

// 19: the card of a number has to be there and is not, or must not be there and is.
pub fn bad_presence(wanted: bool, there: bool) -> bool
    ensures { result ≡ bad_presence wanted there }
{
    wanted != there
}

// 20: more than 2,000 cards, or more bytes than the buffer has.
#[tactic(auto, unfolding(crate::specs::Edits::bad_capacity))]
pub fn bad_capacity(room: usize, count: usize) -> bool
    ensures { result ≡ bad_capacity room count }
{
    header::MOST_CARDS < count || room < size_of(count)
}

// The header of a register of so many cards, with the distances that it stores.
pub fn put_header(out: &mut Writer, count: usize, distances: Stored)
    requires { (count ≤ 2000) × Room out.old 11 }
    ensures wrote { Puts out.old out.new (header_bytes count distances) }
    ensures value { out.new.at ≡ out.old.at + 11 }
{
    buffer::put_four(out, size_of(count) as u32);
    buffer::put_byte(out, VERSION);
    buffer::put_two(out, count as u16);
    buffer::put_two(out, distances.toxic);
    buffer::put_two(out, distances.flammable);
}

// A card as version 3 has it: an older one gains the days that it has without them.
#[tactic(auto, using(crate::proofs::Ends::stands_longer, crate::proofs::Ends::stands_grown, crate::proofs::Ends::stands_long))]
fn put_card(out: &mut Writer, card: &[u8])
    requires { Room out.old 28 × Given card.now }
    ensures wrote { Puts out.old out.new (grown card.now) }
    ensures value { out.new.at ≡ out.old.at + 28 }
{
    buffer::put_text(out, card);
    if card.len() < 28 {
        buffer::put_two(out, 1);
        buffer::put_two(out, 366);
    }
}

// Cards one behind the other, each as version 3 has it.
pub fn put_cards(out: &mut Writer, cards: Cards)
    requires { Room out.old (28 * length (in_turn cards)) × AllGiven (in_turn cards) }
    ensures wrote { Puts out.old out.new (concat (map grown (in_turn cards.entry))) }
    ensures value { out.new.at ≡ out.old.at + 28 * length (in_turn cards.entry) }
{
    for place in 0..cards.len() {
        put_card(out, cards.at(place));
    }
}
