// The number of a field by its form: a decimal number, a temperature, or a CAS number with its hyphens.
#![tactic(auto)]

ghost use Rattle.std.specs.Prelude.{◌≡◌};
ghost use Rattle.numerals.specs.declared.Form.{Form};
ghost use Rattle.numerals.specs.Numerals.{cas_in, value_of, value_in};

use numerals::Form;

// A CAS number, its hyphens fifth and second from the end: its three groups, one read on from the other.
#[tactic(auto, unfolding(numerals::specs::Numerals::cas_in, numerals::specs::Numerals::hyphened), using(crate::proofs::Ends::cas_groups))]
fn cas_in(text: &[u8]) -> Option<u32>
    ensures { result ≡ cas_in text.now }
{
    if !matches!(text, [_, .., b'-', _, _, b'-', _]) {
        return None;
    }
    let end = text.len();
    let first = numerals::read_on(&text[..end - 5], 0, numerals::FOUR_BYTES)?;
    let second = numerals::read_on(&text[end - 4..end - 2], first, numerals::FOUR_BYTES)?;
    numerals::read_on(&text[end - 1..], second, numerals::FOUR_BYTES)
}

// The number of a field by a form that is known only as the program runs, with spaces around it or none.
#[tactic(auto, unfolding(numerals::specs::Numerals::value_in))]
pub fn value_by(form: Form, field: &[u8]) -> Option<u32>
    ensures { result ≡ value_in form field.now }
{
    let text = spaces::trimmed(field);
    match form {
        Form::Decimal(most) => numerals::number_in(text, most),
        Form::Cas => cas_in(text),
        Form::Temperature => numerals::heat_in(text),
    }
}

// The same of a form that is known as the code is written: what a field is to hold, and how its number is read.
pub trait Reads {
    ghost form: { Form };

    // The number of a text, or none where it is not well formed.
    fn read(text: &[u8]) -> Option<u32>
        ensures { result ≡ value_of form text.now };
}

// A decimal number of at most so much.
pub struct Decimal<const MOST: u32>;

impl<const MOST: u32> Reads for Decimal<MOST> {
    ghost form = { Form.Decimal MOST };

    fn read(text: &[u8]) -> Option<u32> {
        numerals::number_in(text, MOST)
    }
}

// What fits one byte, two or four.
pub type OneByte = Decimal<255>;

pub type TwoBytes = Decimal<65_535>;

pub type FourBytes = Decimal<{ numerals::FOUR_BYTES }>;

// A CAS number with hyphens.
pub struct Cas;

impl Reads for Cas {
    ghost form = { Form.Cas };

    fn read(text: &[u8]) -> Option<u32> {
        cas_in(text)
    }
}

// A temperature, as the two bytes that a card has, still unsigned.
pub struct Temperature;

impl Reads for Temperature {
    ghost form = { Form.Temperature };

    fn read(text: &[u8]) -> Option<u32> {
        numerals::heat_in(text)
    }
}

// The number of a field, with spaces around it or none.
#[tactic(auto, unfolding(numerals::specs::Numerals::value_in))]
pub fn value_in<R: Reads>(field: &[u8]) -> Option<u32>
    ensures { result ≡ value_in R.form field.now }
{
    R::read(spaces::trimmed(field))
}
