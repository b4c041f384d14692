// The reader of one comma line: its eleven fields read into the fields of a card, or found not well formed.
#![tactic(auto)]

ghost use Rattle.std.specs.Prelude.{◌≡◌, IfNone, IfSome, None};
ghost use Rattle.comma.specs.Line.{fields_in, codes_in, lasts_in, line_of};
ghost use Rattle.comma.specs.Stages.{CodesTold, AmountsTold, NoAmounts};

use comma::{Amounts, Codes};
use fields::Fields;
use read_number::{Cas, FourBytes, OneByte, TwoBytes};

// "A line is at most 200 bytes"
const LONGEST: usize = 200;

// Kind, state, ground and containment, and what is left of the line behind them.
#[tactic(auto, unfolding(comma::specs::Line::codes_in), using(comma::proofs::StageLaws::taken_next))]
fn codes_of(line: &[u8]) -> Option<(Codes, &[u8])>
    ensures some { IfSome result (λ told. CodesTold line.now told.0 told.1.now) }
    ensures none { IfNone result (codes_in (fields_in line.now) ≡ None) }
{
    let (kind, rest) = read_field::take_field::<OneByte>(line)?;
    let (state, rest) = read_field::take_field::<OneByte>(rest)?;
    let (topography, rest) = read_field::take_field::<OneByte>(rest)?;
    let (containment, rest) = read_field::take_field::<OneByte>(rest)?;
    let codes = Codes {
        kind: kind as u8,
        state: state as u8,
        topography: topography as u8,
        containment: containment as u8,
    };
    Some((codes, rest))
}

// CAS number, pounds and area, from what is left of a line, and what is left behind them.
#[tactic(auto, unfolding(comma::specs::Line::amounts_in), using(comma::proofs::StageLaws::taken_next))]
fn amounts_of(text: &[u8]) -> Option<(Amounts, &[u8])>
    ensures some { IfSome result (λ told. AmountsTold text.now told.0 told.1.now) }
    ensures none { IfNone result (NoAmounts text.now) }
{
    let (cas, rest) = read_field::take_field::<Cas>(text)?;
    let (pounds, rest) = read_field::take_field::<FourBytes>(rest)?;
    let (area, rest) = read_field::take_field::<FourBytes>(rest)?;
    Some((Amounts { cas, pounds, area }, rest))
}

// Wall, temperature or concentration, and card number, and the remark, which is the last field and is dropped.
#[tactic(auto, unfolding(comma::specs::Line::lasts_in), using(comma::proofs::StageLaws::taken_next, comma::proofs::StageLaws::remark_is, comma::proofs::StageLaws::remark_not))]
fn lasts_of(text: &[u8], codes: Codes, amounts: Amounts) -> Option<Fields>
    ensures { result ≡ lasts_in codes amounts (fields_in text.now) }
{
    let (wall, rest) = read_field::take_field::<TwoBytes>(text)?;
    let (heat, rest) = read_field::take_tenths(rest, codes.state)?;
    let (number, remark) = read_field::take_field::<FourBytes>(rest)?;
    if pieces::end_of(remark, b',') < remark.len() {
        return None;
    }
    Some(Fields {
        kind: codes.kind,
        state: codes.state,
        topography: codes.topography,
        containment: codes.containment,
        cas: amounts.cas,
        pounds: amounts.pounds,
        area: amounts.area,
        wall: wall as u16,
        heat: heat as u16,
        number,
    })
}

// The card of a line, without its line feed; or none, since the line is not eleven well-formed fields or too long.
#[tactic(auto, unfolding(comma::specs::Line::line_of))]
pub fn line_of(line: &[u8]) -> Option<Fields>
    ensures { result ≡ line_of line.now }
{
    if LONGEST < line.len() {
        return None;
    }
    let (codes, rest) = codes_of(line)?;
    let (amounts, rest) = amounts_of(rest)?;
    lasts_of(rest, codes, amounts)
}
