// The edits of a register, in a lent buffer that starts with it: a card is added, replaced or withdrawn by its number. The register as it
// would then be is laid in a buffer of its own, of cards that have passed, before a byte of the lent one changes.
#![tactic(auto)]

ghost use Rattle.std.specs.Prelude.{◌≡◌, ◌+◌, ◌*◌, ◌≤◌, ◌++◌, length};
ghost use Rattle.header.specs.Header.{size_of};
ghost use Rattle.header.specs.InTurn.{in_turn};
ghost use Rattle.edits.specs.Edits.{add, replace, withdraw, edit_layout, bad_presence, bad_capacity, register_with, register_by, held, length_of, edit_of, left_by, buffer_after};
ghost use Rattle.edits.specs.Around.{Brings, AllGiven};
ghost use Rattle.edit.specs.Laid.{Ready, change_of, way_of, Known, LaidIn};

use buffer::Writer;
use farthest::Leaders;
use header::{Cards, Stored};
use refusals::{Refusal, SentBack};
use running::Running;

// 19, then 20: a card of the number is not there or must not be, or the register has no room.
fn in_the_way(wanted: bool, there: bool, room: usize, count: usize) -> Result<(), SentBack<u32>>
    ensures { result ≡ way_of (bad_presence wanted there) (bad_capacity room count) }
{
    if edits::bad_presence(wanted, there) {
        return Err(Refusal::Presence.into());
    }
    if edits::bad_capacity(room, count) {
        return Err(Refusal::Capacity.into());
    }
    Ok(())
}

// The register of these cards, at the start of a buffer. Those in front and those behind have passed already, in the walk over the old
// ones; only the card that is brought is still to be answered, behind those in front.
fn lay(
    front: Cards,
    brought: Cards,
    behind: Cards,
    before: Running,
    after: Leaders,
    own: &mut [u8],
) -> Result<usize, SentBack<u32>>
    requires few { length (in_turn front) + (length (in_turn brought) + length (in_turn behind)) ≤ 2000 }
    requires roomy { size_of edit_layout (length (in_turn front) + (length (in_turn brought) + length (in_turn behind))) ≤ length own.old }
    requires given { AllGiven (in_turn front) × AllGiven (in_turn brought) × AllGiven (in_turn behind) }
    requires known { Known (in_turn front) (in_turn brought) (in_turn behind) before after }
    ensures value { result ≡ length_of (register_with ((in_turn front.entry) ++ ((in_turn brought.entry) ++ (in_turn behind.entry)))) }
    ensures laid { LaidIn own.new (size_of edit_layout (length (in_turn front.entry) + (length (in_turn brought.entry) + length (in_turn behind.entry)))) (register_with ((in_turn front.entry) ++ ((in_turn brought.entry) ++ (in_turn behind.entry)))) }
{
    let with = edit_walk::part(brought, before)?;
    let leaders = edit_walk::merge(before.leaders, edit_walk::merge(with.leaders, after));
    let count = front.len() + (brought.len() + behind.len());
    let mut written = Writer { bytes: own, at: 0 };
    edits::put_header(&mut written, count, cards::distances_of(leaders));
    edits::put_cards(&mut written, front);
    edits::put_cards(&mut written, brought);
    edits::put_cards(&mut written, behind);
    Ok(written.at)
}

// The register as it would then be, of the cards of one with a good header: their own refusals and a wrong stored distance come first, then
// 19 and 20, before the new card is looked at.
fn change(
    cards: Cards,
    stored: Option<Stored>,
    number: u32,
    wanted: bool,
    brought: Cards,
    room: usize,
    own: &mut [u8],
) -> Result<usize, SentBack<u32>>
    requires { (length (in_turn cards) ≤ 2000) × (size_of edit_layout (length (in_turn cards) + 1) ≤ length own.old) × Brings number (in_turn brought) × AllGiven (in_turn cards) × AllGiven (in_turn brought) }
    ensures value { result ≡ length_of (change_of stored number wanted (in_turn brought.entry) (in_turn cards.entry) room) }
    ensures laid { LaidIn own.new room (change_of stored number wanted (in_turn brought.entry) (in_turn cards.entry) room) }
{
    let (front, named, behind) = edits::around(cards, number);
    let (before, after) = edit_walk::walk_around(front, named, behind, stored)?;
    let there = front.len() + behind.len() < cards.len();
    let count = front.len() + (brought.len() + behind.len());
    in_the_way(wanted, there, room, count)?;
    lay(front, brought, behind, before, after, own)
}

// The register as it would then be, of one that a buffer starts with.
fn change_held(
    buffer: &[u8],
    number: u32,
    wanted: bool,
    brought: Cards,
    own: &mut [u8],
) -> Result<usize, SentBack<u32>>
    requires { Ready (held buffer.now) (length own.old) × Brings number (in_turn brought) × AllGiven (in_turn brought) }
    ensures value { result ≡ length_of (register_by number wanted (in_turn brought.entry) buffer.now) }
    ensures laid { LaidIn own.new (length buffer.now) (register_by number wanted (in_turn brought.entry) buffer.now) }
{
    let register = edits::held(buffer);
    let cards = header::cards_of(register);
    let stored = header::stored_of(register);
    change(cards, stored, number, wanted, brought, buffer.len(), own)
}

// An edit by way of a buffer of this length: the new register takes the place of the old one, with zeros behind it.
#[tactic(auto, using(crate::proofs::Stages::fits_most, crate::proofs::Stages::fits_own, crate::proofs::Stages::left_laid, crate::proofs::Stages::left_refused))]
fn edit_by<const ROOM: usize>(
    buffer: &mut [u8],
    number: u32,
    wanted: bool,
    brought: Cards,
) -> Result<usize, SentBack<u32>>
    requires { (ROOM ≤ 56_039) × Ready (held buffer.old) ROOM × Brings number (in_turn brought) × AllGiven (in_turn brought) }
    ensures value { result ≡ length_of (register_by number wanted (in_turn brought.entry) buffer.old) }
    ensures buffer_after { buffer.new ≡ left_by (register_by number wanted (in_turn brought.entry) buffer.old) buffer.old }
{
    let mut own = [0u8; ROOM];
    let size = change_held(buffer, number, wanted, brought, &mut own)?;
    buffer[..size].copy_from_slice(&own[..size]);
    buffer[size..].fill(0);
    Ok(size)
}

// Any edit. A short register has a short buffer of the code's own: to clear the long one, with room for a card more than a register may
// have, costs about as much as the walk over a dozen cards.
fn edit(
    buffer: &mut [u8],
    number: u32,
    wanted: bool,
    brought: Cards,
) -> Result<usize, SentBack<u32>>
    requires { Brings number (in_turn brought) × AllGiven (in_turn brought) }
    ensures value { result ≡ length_of (register_by number wanted (in_turn brought.entry) buffer.old) }
    ensures buffer_after { buffer.new ≡ left_by (register_by number wanted (in_turn brought.entry) buffer.old) buffer.old }
{
    let count = header::header_of(edits::held(buffer), header::ENOUGH)?;
    if count <= 35 {
        return edit_by::<1_024>(buffer, number, wanted, brought);
    }
    edit_by::<56_039>(buffer, number, wanted, brought)
}

// Adds a card, at its place by number.
pub fn add(buffer: &mut [u8], card: &[u8; 28]) -> Result<usize, SentBack<u32>>
    ensures value { result ≡ edit_of (add card.now) buffer.old }
    ensures buffer_after { buffer.new ≡ buffer_after (add card.now) buffer.old }
{
    edit(buffer, edits::number_of(card), false, Cards::one(card))
}

// Replaces the card of the same number.
pub fn replace(buffer: &mut [u8], card: &[u8; 28]) -> Result<usize, SentBack<u32>>
    ensures value { result ≡ edit_of (replace card.now) buffer.old }
    ensures buffer_after { buffer.new ≡ buffer_after (replace card.now) buffer.old }
{
    edit(buffer, edits::number_of(card), true, Cards::one(card))
}

// Withdraws the card of a number.
pub fn withdraw(buffer: &mut [u8], number: u32) -> Result<usize, SentBack<u32>>
    ensures value { result ≡ edit_of (withdraw number) buffer.old }
    ensures buffer_after { buffer.new ≡ buffer_after (withdraw number) buffer.old }
{
    edit(buffer, number, true, Cards::none())
}
