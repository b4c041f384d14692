// The words of the C interface for a likely scenario: its table, how its distance was found, and the distance.
#![tactic(auto)]

ghost use Rattle.std.specs.Prelude.{◌≡◌};
ghost use Rattle.likely_words.specs.LikelyWords.{found_of, hundredths_of, likely_code, table_after, found_after, hundredths_after};

use interpolation::Likely;
use likely_scenario::LikelyScenario;
use refusals::Refusal;

// How a distance was found: 1 printed, 2 interpolated, 3 the limit.
fn found_of(distance: Likely) -> u64
    ensures { result ≡ found_of distance }
{
    match distance {
        Likely::Printed(_) => 1,
        Likely::Interpolated(_) => 2,
        Likely::Limit(_) => 3,
    }
}

// The distance itself, in hundredths of a mile.
fn hundredths_of(distance: Likely) -> f64
    ensures { result ≡ hundredths_of distance }
{
    match distance {
        Likely::Printed(hundredths)
        | Likely::Interpolated(hundredths)
        | Likely::Limit(hundredths) => hundredths,
    }
}

// An answer by words: 0 and the three that are lent, or the refusal's word, and then the three are left alone.
#[tactic(auto, unfolding(crate::specs::LikelyWords::likely_code, crate::specs::LikelyWords::table_after, crate::specs::LikelyWords::found_after, crate::specs::LikelyWords::hundredths_after))]
pub fn tell_likely(
    answer: Result<LikelyScenario, Refusal>,
    table: &mut u64,
    found: &mut u64,
    hundredths: &mut f64,
) -> u64
    ensures value { result ≡ likely_code answer }
    ensures table_after { table.new ≡ table_after answer table.old }
    ensures found_after { found.new ≡ found_after answer found.old }
    ensures hundredths_after { hundredths.new ≡ hundredths_after answer hundredths.old }
{
    match answer {
        Ok(scenario) => {
            *table = scenario.table as u64;
            *found = found_of(scenario.distance);
            *hundredths = hundredths_of(scenario.distance);
            0
        }
        Err(refusal) => words::code_of(refusal, 0),
    }
}
