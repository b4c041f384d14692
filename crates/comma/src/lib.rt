// A comma line: the parts that it is read in, before they are the fields of a card.
#![tactic(auto)]

// The first four fields of a line.
#[derive(Clone, Copy)]
pub struct Codes {
    pub kind: u8,
    pub state: u8,
    pub topography: u8,
    pub containment: u8,
}

// The next three.
#[derive(Clone, Copy)]
pub struct Amounts {
    pub cas: u32,
    pub pounds: u32,
    pub area: u32,
}
