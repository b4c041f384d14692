// The leaders as they go: the farthest card of each class after the first cards of a register.
#![tactic(auto)]

ghost use Rattle.std.specs.Prelude.{◌≡◌, ◌≤◌, length};
ghost use Rattle.header.specs.InTurn.{in_turn};
ghost use Rattle.cards.specs.Register.{cards_from, settled};
ghost use Rattle.prefix.specs.Prefix.{result_after, prefix_of};
ghost use Rattle.prefix.specs.Claim.{Keeps};

use cards::held_to;
use farthest::Leaders;
use header::{Cards, Stored};
use refusals::SentBack;
use walk::Nothing;

// The leaders of the first cards, from the running values of the one walk where it has passed them. It then goes on through the others,
// and holds the stored distances to the leaders of them all, since a register is accepted as a whole or not at all.
#[tactic(auto, using(header::proofs::Turns::counted))]
fn leaders_at(cards: Cards, stored: Option<Stored>, first: usize) -> Result<Leaders, SentBack<u32>>
    requires { (first ≤ length (in_turn cards)) × (length (in_turn cards) ≤ 2000) }
    ensures { result ≡ result_after first (settled stored (cards_from 0 0 (in_turn cards.entry))) }
{
    let (front, behind) = cards.split_at(first);
    let (running, _) = walk::through::<Nothing>(front, &mut [])?;
    let (whole, _) = walk::along::<Nothing>(behind, running, &mut [])?;
    held_to(stored, whole.leaders)?;
    Ok(running.leaders)
}

// The farthest card of each class among the first k cards of a register, or the refusal of the register, whichever card it is for.
// Beyond the count the first k cards are all there are.
pub fn leaders_after(register: &[u8], k: usize) -> Result<Leaders, SentBack<u32>>
    ensures value { result ≡ prefix_of register.now k }
    ensures keeps { Keeps register.now k result }
{
    header::header_of(register, header::ENOUGH)?;
    let cards = header::cards_of(register);
    leaders_at(cards, header::stored_of(register), k.min(cards.len()))
}
