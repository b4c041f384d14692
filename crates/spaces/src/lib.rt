// A field of a comma line without the spaces around it.
#![tactic(auto)]

ghost use Rattle.std.specs.Prelude.{◌≡◌};
ghost use Rattle.spaces.specs.Spaces.{skip, chop, bare};

// A field from its first byte that is no space on.
fn skip(field: &[u8]) -> &[u8]
    ensures { result.now ≡ skip field.now }
{
    let first = field.iter().position(|&b| b != b' ');
    &field[first.unwrap_or(field.len())..]
}

// A field up to its last byte that is no space.
fn chop(field: &[u8]) -> &[u8]
    ensures { result.now ≡ chop field.now }
{
    let last = field.iter().rposition(|&b| b != b' ');
    &field[..last.map_or(0, |last| last + 1)]
}

// A field without the spaces around it.
pub fn trimmed(field: &[u8]) -> &[u8]
    ensures { result.now ≡ bare field.now }
{
    chop(skip(field))
}
