// A text between separators: where its first piece ends, or the one that starts at a place.
#![tactic(auto)]

ghost use Rattle.std.specs.Prelude.{◌≡◌, ◌+◌, ◌≤◌, length, drop};
ghost use Rattle.pieces.specs.Pieces.{before};

// The place of the first separator of a text, or the end of the text where there is none. It stays a function of its own when a line is
// read: laid out for each field anew, the search has no processor's register left for the place, and reading costs a third more.
#[inline(never)]
pub fn end_of(text: &[u8], separator: u8) -> usize
    ensures value { result ≡ length (before separator text.now) }
    ensures within { result ≤ length text.now }
{
    for (place, &b) in text.iter().enumerate() {
        if b == separator {
            return place;
        }
    }
    text.len()
}

// The same from a place on, as a place of the whole text; the place itself where that lies past the end.
#[tactic(auto, using(crate::proofs::Laws::beyond))]
pub fn end_from(text: &[u8], at: usize, separator: u8) -> usize
    ensures { result ≡ at + length (before separator (drop at text.now)) }
{
    match text.get(at..) {
        Some(rest) => at + end_of(rest, separator),
        None => at,
    }
}
