// The bytes of a card as numbers, before anything is made of them.
#![tactic(auto)]

ghost use Rattle.std.specs.Prelude.{◌≡◌};
ghost use Rattle.fields.specs.Layout.{fields_of};

#[derive(Clone, Copy)]
pub struct Fields {
    pub kind: u8,
    pub state: u8,
    pub topography: u8,
    pub containment: u8,
    pub cas: u32,
    pub pounds: u32,
    pub area: u32,
    pub wall: u16,
    // the two bytes of the temperature, or in state 5 of the concentration, still unsigned
    pub heat: u16,
    pub number: u32,
}

// All fields of a card.
pub fn fields_of(card: &[u8]) -> Fields
    ensures { result ≡ fields_of card.now }
{
    Fields {
        kind: buffer::byte(card, 0),
        state: buffer::byte(card, 1),
        topography: buffer::byte(card, 2),
        containment: buffer::byte(card, 3),
        cas: buffer::four(card, 4),
        pounds: buffer::four(card, 8),
        area: buffer::four(card, 12),
        wall: buffer::two(card, 16),
        heat: buffer::two(card, 18),
        number: buffer::four(card, 20),
    }
}
