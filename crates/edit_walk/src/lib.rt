// The one walk of an edit: a register's cards in three parts, those in front of a number, the one of that number and those behind it.
// Each part has leads of its own, so that the register as it would then be needs no second walk: the cards around the number keep theirs,
// and only the card that is brought is still to be answered.
#![tactic(auto)]

ghost use Rattle.std.specs.Prelude.{◌≡◌, ◌+◌, ◌≤◌, length};
ghost use Rattle.header.specs.InTurn.{in_turn};
ghost use Rattle.edit_walk.specs.Parts.{merged_lead, merged, part_of, Walked};

use farthest::{Leader, Leaders};
use header::{Cards, Stored};
use refusals::SentBack;
use running::Running;
use walk::Nothing;

// The lead of one class in two parts, the one behind the other: on a tie the earlier card keeps it.
fn merge_lead(front: Option<Leader>, behind: Option<Leader>) -> Option<Leader>
    ensures { result ≡ merged_lead front behind }
{
    match behind {
        Some(next) => match front {
            Some(best) if next.distance <= best.distance => Some(best),
            _ => Some(next),
        },
        None => front,
    }
}

// The leads of both classes in two parts.
#[tactic(auto, unfolding(crate::specs::Parts::merged))]
pub fn merge(front: Leaders, behind: Leaders) -> Leaders
    ensures { result ≡ merged front behind }
{
    Leaders {
        toxic: merge_lead(front.toxic, behind.toxic),
        flammable: merge_lead(front.flammable, behind.flammable),
    }
}

// A part, from the number and the place behind the cards before it: the running values behind it, with the leads of its own cards.
pub fn part(cards: Cards, from: Running) -> Result<Running, SentBack<u32>>
    requires { from.place + length (in_turn cards) ≤ 2000 }
    ensures { result ≡ part_of from (in_turn cards.entry) }
{
    let afresh = Running {
        leaders: farthest::no_leaders(),
        ..from
    };
    let (end, _) = walk::along::<Nothing>(cards, afresh, &mut [])?;
    Ok(end)
}

// The walk through all cards of a register, held to the distances that it stores: the running values behind the cards in front of the
// number, and the leads of those behind it.
pub fn walk_around(
    front: Cards,
    named: Cards,
    behind: Cards,
    stored: Option<Stored>,
) -> Result<(Running, Leaders), SentBack<u32>>
    requires { length (in_turn front) + (length (in_turn named) + length (in_turn behind)) ≤ 2000 }
    ensures { Walked stored (in_turn front.entry) (in_turn named.entry) (in_turn behind.entry) result }
{
    let before = part(front, running::start())?;
    let with = part(named, before)?;
    let after = part(behind, with)?;
    let leaders = merge(before.leaders, merge(with.leaders, after.leaders));
    cards::held_to(stored, leaders)?;
    Ok((before, after.leaders))
}
