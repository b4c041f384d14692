// Exhibit C-1: which substances are flammable, and their heats of combustion.
#![tactic(auto)]

mod tables;

ghost use Rattle.std.specs.Prelude.{◌≡◌, ◌≤◌, IfSome};
ghost use Rattle.combustion.specs.Heats.{heat_of, is_flammable};

// Whether the exhibit lists the substance.
#[tactic(auto, using(crate::proofs::Laws::listed))]
pub fn is_flammable(cas: u32) -> bool
    ensures { result ≡ is_flammable cas }
{
    tables::heat_of(cas).is_some()
}

// The heat of combustion of a substance in kilojoules per kilogram; none for one that is not listed.
#[tactic(auto, using(crate::proofs::Laws::heat_within))]
pub fn heat_of(cas: u32) -> Option<u32>
    ensures value { result ≡ heat_of cas }
    ensures upper_bound { IfSome result (λ hc. hc ≤ 150_000) }
{
    tables::heat_of(cas)
}
