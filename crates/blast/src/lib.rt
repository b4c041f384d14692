// Equation C-1: the ring of a blast, by the quantity of a flammable substance and its heat of combustion in Exhibit C-1.
#![tactic(auto)]

ghost use Rattle.std.specs.Prelude.{◌≡◌, ◌≤◌};
ghost use Rattle.blast.specs.Blast.{metres_of, ring_of};

use units::{Miles, Pounds};

// Enough metres for any quantity of four bytes at any heat up to 150,000, and the least such number.
const FARTHEST: u64 = 31_327;

// The least whole number of metres whose cube, times 102,960, is at least 4,913 times the pounds times the heat. Every number below
// `low` is too small, and `low + span` is enough. The span is halved whatever is found, fifteen times in all, so that no jump
// depends on the card.
fn metres(pounds: u32, heat: u32) -> u64
    requires { heat ≤ 150_000 }
    ensures value { result ≡ metres_of pounds heat }
    ensures upper_bound { result ≤ 31_327 }
{
    let need = 4_913 * (pounds as u64) * (heat as u64);
    let mut low = 0;
    let mut span = FARTHEST;
    while 0 < span {
        let next = low + (span + 1) / 2;
        let last = next - 1;
        if last * last * last * 102_960 < need {
            low = next;
        }
        span = span / 2;
    }
    low
}

// The distance of a blast, in hundredths of a mile: a mile has 1,609.344 metres.
#[tactic(auto, using(crate::proofs::Halving::ring_is, crate::proofs::Halving::no_ring))]
pub fn ring(cas: u32, quantity: Pounds) -> Miles
    ensures { result ≡ ring_of cas quantity.0 }
{
    let Some(heat) = combustion::heat_of(cas) else {
        return Miles(0);
    };
    let distance = metres(quantity.0, heat);
    Miles(((distance * 100_000 + 1_609_343) / 1_609_344) as u16)
}
