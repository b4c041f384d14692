// The farthest card of each class, found by going through the answers of a register in their order.
#![tactic(auto)]

ghost use Rattle.std.specs.Prelude.{◌≡◌};
ghost use Rattle.farthest.specs.Farthest.{farther, no_leaders, leaders_after};

use card::{Answer, Class};
use units::Miles;

// The card that leads its class, by number and distance.
#[derive(Clone, Copy)]
pub struct Leader {
    pub number: u32,
    pub distance: Miles,
}

// The leader of each class, none where it has no card so far. The two classes are ranked apart: a toxic distance is never held
// against a flammable one.
#[derive(Clone, Copy)]
pub struct Leaders {
    pub toxic: Option<Leader>,
    pub flammable: Option<Leader>,
}

// Before the first card neither class has one.
pub fn no_leaders() -> Leaders
    ensures { result ≡ no_leaders }
{
    Leaders {
        toxic: None,
        flammable: None,
    }
}

// The lead of one class after a card of that class. On a tie the earlier card keeps it.
fn overtake(leader: Option<Leader>, answer: Answer) -> Option<Leader>
    ensures { result ≡ farther leader answer }
{
    let next = Leader {
        number: answer.number,
        distance: answer.distance,
    };
    match leader {
        Some(best) if answer.distance <= best.distance => Some(best),
        _ => Some(next),
    }
}

// The leads of both classes after one more card, which counts only in its own class.
#[tactic(auto, unfolding(crate::specs::Farthest::leaders_after))]
pub fn lead(leaders: Leaders, answer: Answer) -> Leaders
    ensures { result ≡ leaders_after leaders answer }
{
    match answer.class {
        Class::Toxic => Leaders {
            toxic: overtake(leaders.toxic, answer),
            ..leaders
        },
        Class::Flammable => Leaders {
            flammable: overtake(leaders.flammable, answer),
            ..leaders
        },
    }
}
