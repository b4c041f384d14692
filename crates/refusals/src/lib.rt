// Why a register is sent back, an edit of one, a text of comma lines, or a question for a likely scenario or a day, and at which place.
#![tactic(auto)]

ghost use Rattle.std.specs.Prelude.{◌≡◌};
ghost use Rattle.refusals.specs.Numbers.{number_of, refused_at};

// Document 01's reasons 1 to 11, in its order, and those of document 02 behind them.
#[derive(Clone, Copy)]
pub enum Refusal {
    Length = 1,
    Version = 2,
    Count = 3,
    Buffer = 4,
    Number = 5,
    Form = 6,
    Unlisted = 7,
    Quantity = 8,
    Area = 9,
    Mismatch = 10,
    Beyond = 11,
    Line = 12,
    Room = 13,
    Wall = 14,
    Temperature = 15,
    Concentration = 16,
    SuppliedRate = 17,
    SuppliedDuration = 18,
    Presence = 19,
    Capacity = 20,
    Day = 21,
}

// A refusal and its place: a card's, counted from 0, or a line's, counted from 1.
#[derive(Clone, Copy)]
pub struct SentBack<Place> {
    pub refusal: Refusal,
    pub place: Place,
}

// "(0 for 1 to 4, and wherever no card is meant)"
impl From<Refusal> for SentBack<u32> {
    ghost from_gives = { λ r sent. sent ≡ refused_at r 0 };

    fn from(refusal: Refusal) -> SentBack<u32> {
        SentBack { refusal, place: 0 }
    }
}

// A register's refusal, handed on by a call whose places may be a line's of a long text.
impl From<SentBack<u32>> for SentBack<usize> {
    ghost from_gives = { λ sent same. same ≡ sent };

    fn from(sent: SentBack<u32>) -> SentBack<usize> {
        SentBack {
            refusal: sent.refusal,
            place: sent.place as usize,
        }
    }
}

// The number of a refusal.
impl From<Refusal> for u8 {
    ghost from_gives = { λ r n. n ≡ number_of r };

    fn from(refusal: Refusal) -> u8 {
        refusal as u8
    }
}
