// The line of a likely scenario: its table, how its distance was found, its miles rounded up, and its bits. Every byte outside the line
// stays as it was.
#![tactic(auto)]

ghost use Rattle.std.specs.Prelude.{◌++◌, ◌+◌, ◌≤◌, length};
ghost use Rattle.buffer.specs.Puts.{Room, Puts};
ghost use Rattle.line_laws.specs.Numbers.{Number, Carries};
ghost use Rattle.likely_line.specs.LikelyLine.{numbers_text, likely_text, scenario_line};

use buffer::Writer;
use interpolation::Likely;
use likely_scenario::LikelyScenario;

// The miles of a distance and its bits, up to the end of the line.
#[tactic(auto, using(float_text::proofs::UpLaws::number_not_nan))]
fn put_numbers(out: &mut Writer, hundredths: f64)
    requires { Room out.old 48 × Number hundredths }
    ensures wrote { Puts out.old out.new (numbers_text hundredths) }
    ensures upper_bound { out.new.at ≤ out.old.at + 48 }
{
    float_text::put_miles_up(out, hundredths);
    buffer::put_byte(out, b' ');
    float_text::put_pattern(out, hundredths);
    buffer::put_byte(out, b'\n');
}

// A word for how the distance was found, and the distance.
fn put_told(out: &mut Writer, word: &[u8], hundredths: f64)
    requires { Room out.old (length word.now + 48) × Number hundredths }
    ensures wrote { Puts out.old out.new (word.now ++ numbers_text hundredths) }
    ensures upper_bound { out.new.at ≤ out.old.at + length word.now + 48 }
{
    buffer::put_text(out, word);
    put_numbers(out, hundredths);
}

// A distance, by how it was found.
fn put_likely(out: &mut Writer, distance: Likely)
    requires { Room out.old 64 × Carries distance }
    ensures wrote { Puts out.old out.new (likely_text distance) }
    ensures upper_bound { out.new.at ≤ out.old.at + 64 }
{
    match distance {
        Likely::Printed(hundredths) => put_told(out, b"printed ", hundredths),
        Likely::Interpolated(hundredths) => put_told(out, b"interpolated ", hundredths),
        Likely::Limit(hundredths) => put_told(out, b"limit ", hundredths),
    }
}

// The line of a likely scenario.
pub fn put_scenario(out: &mut Writer, scenario: LikelyScenario)
    requires { Room out.old 96 × Carries scenario.distance }
    ensures wrote { Puts out.old out.new (scenario_line scenario) }
    ensures upper_bound { out.new.at ≤ out.old.at + 96 }
{
    decimal::put_number_then(out, scenario.table as u64, b' ');
    put_likely(out, scenario.distance);
}
