// Several cards of a register, one behind the other.

ghost use Rattle.std.specs.Prelude.{◌≡◌, ◌*◌, length};

// So many cards, each of so many bytes. How long a card is the register's version says, so that it is known only as the program runs.
#[derive(Clone, Copy)]
pub struct Cards<'a> {
    pub bytes: &'a [u8],
    pub size: usize,
    pub count: usize,
    ghost whole: { length bytes.now ≡ size * count },
}

impl<'a> Cards<'a> {
    ghost use Rattle.std.specs.Prelude.{◌≡◌, ◌<◌, ◌≤◌, ◌*◌, List, [], ◌∷◌, length, take, drop, get_or};
    ghost use Rattle.header.specs.InTurn.{in_turn};

    // No card.
    #[tactic(auto, unfolding(crate::specs::InTurn::in_turn))]
    pub fn none() -> Cards<'a>
        ensures { in_turn result ≡ [] }
    {
        Cards {
            bytes: &[],
            size: 0,
            count: 0,
        }
    }

    // One card.
    #[tactic(auto, using(crate::proofs::Turns::one_is))]
    pub fn one(card: &'a [u8]) -> Cards<'a>
        ensures { in_turn result ≡ card.now ∷ [] }
    {
        Cards {
            bytes: card,
            size: card.len(),
            count: 1,
        }
    }

    // How many they are.
    #[tactic(auto, using(crate::proofs::Turns::counted))]
    pub fn len(self) -> usize
        ensures value { result ≡ length (in_turn self.entry) }
        ensures count { result ≡ self.entry.count }
    {
        self.count
    }

    // The card at a place.
    #[tactic(auto, using(crate::proofs::Turns::turn_within, crate::proofs::Turns::turn_is))]
    pub fn at(self, place: usize) -> &'a [u8]
        requires { place < self.count }
        ensures { result.now ≡ get_or (in_turn self.entry) place [] }
    {
        let start = self.size * place;
        &self.bytes[start..start + self.size]
    }

    // The first of them, and those behind.
    #[tactic(auto, using(crate::proofs::Turns::first_within))]
    pub fn split_at(self, first: usize) -> (Cards<'a>, Cards<'a>)
        requires { first ≤ self.count }
        ensures front { in_turn result.0 ≡ take first (in_turn self.entry) }
        ensures behind { in_turn result.1 ≡ drop first (in_turn self.entry) }
        ensures sizes { (result.0.size ≡ self.entry.size) × (result.1.size ≡ self.entry.size) }
    {
        let (front, behind) = self.bytes.split_at(self.size * first);
        (
            Cards {
                bytes: front,
                size: self.size,
                count: first,
            },
            Cards {
                bytes: behind,
                size: self.size,
                count: self.count - first,
            },
        )
    }
}
