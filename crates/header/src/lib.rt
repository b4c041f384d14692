// The header of a register: what its version means, the cards behind it, and document 01's checks 1 to 4.
#![tactic(auto)]

ghost use Rattle.std.specs.Prelude.{◌≡◌, ◌≤◌};
ghost use Rattle.header.specs.Header.{layout_of, layout_in, stored_in, cards_in, bad_length, bad_version, bad_count, header_of, Whole, HeaderFits};
ghost use Rattle.header.specs.InTurn.{in_turn};

use refusals::Refusal;

mod several;

pub use several::Cards;

// The most cards of a register.
pub const MOST_CARDS: usize = 2_000;

// An answer buffer for that many, so that no register is refused for the buffer.
pub const ENOUGH: usize = 32_000;

// What a version means: how many bytes the header has and how many a card, and whether the header stores the farthest distances.
#[derive(Clone, Copy)]
pub struct Layout {
    pub header: usize,
    pub card: usize,
    pub stores: bool,
}

// The two distances that a header stores, in hundredths of a mile: 0 where the class has no card.
#[derive(Clone, Copy, PartialEq, Eq)]
pub struct Stored {
    pub toxic: u16,
    pub flammable: u16,
}

// Version 1.
pub const FIRST: Layout = Layout {
    header: 7,
    card: 24,
    stores: false,
};

// Version 2, which stores the farthest distances.
pub const SECOND: Layout = Layout {
    header: 11,
    card: 24,
    stores: true,
};

// Version 3, whose cards have seasons, and which an edit makes.
pub const THIRD: Layout = Layout {
    header: 11,
    card: 28,
    stores: true,
};

// The versions: the one place in the code that tells them apart.
#[tactic(auto, unfolding(crate::specs::Header::layout_of))]
pub fn layout_of(version: u8) -> Option<Layout>
    ensures { result ≡ layout_of version }
{
    match version {
        1 => Some(FIRST),
        2 => Some(SECOND),
        3 => Some(THIRD),
        _ => None,
    }
}

// The layout of a register; a version that nobody gives has none.
#[tactic(auto, unfolding(crate::specs::Header::layout_in, crate::specs::Header::layout_of))]
fn layout_in(register: &[u8]) -> Layout
    ensures value { result ≡ layout_in register.now }
    ensures header_bound { result.header ≤ 11 }
    ensures card_bound { result.card ≤ 28 }
{
    layout_of(buffer::byte(register, 4)).unwrap_or(Layout {
        header: 0,
        card: 0,
        stores: false,
    })
}

#[tactic(auto, unfolding(crate::specs::Header::bad_length))]
pub fn bad_length(register: &[u8]) -> bool
    ensures { result ≡ bad_length register.now }
{
    register.len() < 7 || buffer::four(register, 0) as usize != register.len()
}

#[tactic(auto, unfolding(crate::specs::Header::bad_version))]
fn bad_version(register: &[u8]) -> bool
    ensures { result ≡ bad_version register.now }
{
    layout_of(buffer::byte(register, 4)).is_none()
}

#[tactic(auto, unfolding(crate::specs::Header::bad_count))]
fn bad_count(register: &[u8]) -> bool
    ensures { result ≡ bad_count register.now }
{
    let layout = layout_in(register);
    let count = buffer::two(register, 5) as usize;
    MOST_CARDS < count || register.len() != layout.header + layout.card * count
}

#[tactic(auto, unfolding(crate::specs::Header::header_of, crate::specs::Header::bad_buffer))]
// The checks 1 to 4 in turn: how many cards a register has, or why it is sent back before its first card.
pub fn header_of(register: &[u8], room: usize) -> Result<usize, Refusal>
    ensures value { result ≡ header_of register.now room }
    ensures header_fits { HeaderFits register.now room result }
{
    if bad_length(register) {
        return Err(Refusal::Length);
    }
    if bad_version(register) {
        return Err(Refusal::Version);
    }
    if bad_count(register) {
        return Err(Refusal::Count);
    }
    let count = buffer::two(register, 5) as usize;
    if room < 16 * count {
        return Err(Refusal::Buffer);
    }
    Ok(count)
}

// The cards of a register that is as long as its header says, each of the bytes that its version gives it.
#[tactic(auto, using(crate::proofs::Chunks::header_there, crate::proofs::Chunks::cards_whole, crate::proofs::Chunks::cards_cut_out), unfolding(crate::specs::InTurn::in_turn))]
pub fn cards_of(register: &[u8]) -> Cards
    requires { Whole register.now }
    ensures { in_turn result ≡ cards_in register.now }
{
    let layout = layout_in(register);
    Cards {
        bytes: &register[layout.header..],
        size: layout.card,
        count: buffer::two(register, 5) as usize,
    }
}

// The distances that a register's header stores, where its version has them.
#[tactic(auto, unfolding(crate::specs::Header::stored_in))]
pub fn stored_of(register: &[u8]) -> Option<Stored>
    ensures { result ≡ stored_in register.now }
{
    if !layout_in(register).stores {
        return None;
    }
    Some(Stored {
        toxic: buffer::two(register, 7),
        flammable: buffer::two(register, 9),
    })
}
