// One field of a comma line, the first of what is left of it: in a form that is given, or, the ninth, in the form that it has.
#![tactic(auto)]

ghost use Rattle.std.specs.Prelude.{◌≡◌, ◌+◌, ◌≤◌, ◌<◌, length, drop, IfNone, IfSome, None, Some};
ghost use Rattle.pieces.specs.Pieces.{before};
ghost use Rattle.numerals.specs.Numerals.{most_of};
ghost use Rattle.comma.specs.Line.{tenths_form};
ghost use Rattle.comma.specs.Stages.{taken_in};

use numerals::Form;
use read_number::Reads;

// What fits two bytes.
pub const TWO_BYTES: u32 = 65_535;

// The first field of a text, and what stands behind its comma. A comma has to end it, since a number is never the last field. It is laid
// out where it is called, so that the two parts are not handed over in memory.
#[tactic(auto, using(pieces::proofs::Laws::before_take))]
#[inline(always)]
fn cut(text: &[u8]) -> Option<(&[u8], &[u8])>
    ensures first { IfSome result (λ parts. parts.0.now ≡ before 44 text.now) }
    ensures rest { IfSome result (λ parts. parts.1.now ≡ drop (length (before 44 text.now) + 1) text.now) }
    ensures some { IfSome result (λ _. length (before 44 text.now) < length text.now) }
    ensures none { IfNone result (length text.now ≤ length (before 44 text.now)) }
{
    let end = pieces::end_of(text, b',');
    let behind = text.get(end + 1..)?;
    Some((&text[..end], behind))
}

// The number of the first field of a text, and what stands behind its comma; or none where it is not well formed. The number is at most
// what its form may hold.
#[tactic(auto, unfolding(comma::specs::Stages::taken_in), using(numerals::proofs::Laws::within))]
pub fn take_field<R: Reads>(text: &[u8]) -> Option<(u32, &[u8])>
    ensures some { IfSome result (λ taken. taken_in R.form text.now ≡ Some (taken.0, taken.1.now)) }
    ensures none { IfNone result (taken_in R.form text.now ≡ None) }
    ensures number_within { IfSome result (λ taken. taken.0 ≤ most_of R.form) }
{
    let (field, behind) = cut(text)?;
    let number = read_number::value_in::<R>(field)?;
    Some((number, behind))
}

// The same in a form that is known only as the program runs.
#[tactic(auto, unfolding(comma::specs::Stages::taken_in), using(numerals::proofs::Laws::within))]
pub fn take_by(text: &[u8], form: Form) -> Option<(u32, &[u8])>
    ensures some { IfSome result (λ taken. taken_in form text.now ≡ Some (taken.0, taken.1.now)) }
    ensures none { IfNone result (taken_in form text.now ≡ None) }
    ensures number_within { IfSome result (λ taken. taken.0 ≤ most_of form) }
{
    let (field, behind) = cut(text)?;
    let number = read_number::value_by(form, field)?;
    Some((number, behind))
}

// What the ninth field is to hold: in state 5, a water solution's, a concentration without a sign, else a temperature.
#[tactic(auto, unfolding(comma::specs::Line::tenths_form))]
pub fn tenths_form(state: u8) -> Form
    ensures { result ≡ tenths_form state }
{
    match state {
        5 => Form::Decimal(TWO_BYTES),
        _ => Form::Temperature,
    }
}

// The ninth field. Both of its forms fit two bytes.
#[tactic(auto, unfolding(comma::specs::Line::tenths_form))]
pub fn take_tenths(text: &[u8], state: u8) -> Option<(u32, &[u8])>
    ensures some { IfSome result (λ taken. taken_in (tenths_form state) text.now ≡ Some (taken.0, taken.1.now)) }
    ensures none { IfNone result (taken_in (tenths_form state) text.now ≡ None) }
    ensures number_within { IfSome result (λ taken. taken.0 ≤ 65_535) }
{
    take_by(text, tenths_form(state))
}
