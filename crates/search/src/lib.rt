// The one search of the register: cut points and the rates of rows are found by it. A substance is found by a `match` on its number.
#![tactic(auto)]

ghost use Rattle.std.specs.Prelude.{◌≡◌};
ghost use Rattle.search.specs.Rising.{first_at_least};

// The first place whose entry is at least x, or the length where there is none. The lists are short and constant, and a walk over
// them becomes comparisons with numbers: that is faster than halving.
pub fn first_at_least(a: &[u64], x: u64) -> usize
    ensures { result ≡ first_at_least x a.now }
{
    a.iter().position(|&entry| x <= entry).unwrap_or(a.len())
}
