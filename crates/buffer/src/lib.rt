// Big-endian numbers read from bytes, and bytes, words and big-endian numbers written one behind the other into a lent buffer.
// The caller sees to the room; every byte outside what is written stays as it was.
#![tactic(auto)]

ghost use Rattle.std.specs.Prelude.{◌≡◌, ◌+◌, ◌≤◌, [], ◌∷◌, length};
ghost use Rattle.buffer.specs.Numbers.{byte_at, two_at, four_at, two_bytes, four_bytes, eight_bytes};
ghost use Rattle.buffer.specs.Puts.{Room, Puts};

// A lent buffer, and the place in it from which on the next text is written.
#[derive(Drop)]
pub struct Writer<'a> {
    pub bytes: &'a mut [u8],
    pub at: usize,
}

// The byte at a place, 0 past the end.
pub fn byte(bytes: &[u8], at: usize) -> u8
    ensures { result ≡ byte_at bytes.now at }
{
    bytes.get(at).copied().unwrap_or(0)
}

// Two bytes, big-endian.
pub fn two(bytes: &[u8], at: usize) -> u16
    requires { at ≤ 1_000_000 }
    ensures { result ≡ two_at bytes.now at }
{
    u16::from_be_bytes([byte(bytes, at), byte(bytes, at + 1)])
}

// Four bytes, big-endian.
pub fn four(bytes: &[u8], at: usize) -> u32
    requires { at ≤ 999_998 }
    ensures { result ≡ four_at bytes.now at }
{
    u32::from_be_bytes([
        byte(bytes, at),
        byte(bytes, at + 1),
        byte(bytes, at + 2),
        byte(bytes, at + 3),
    ])
}

// One byte, as the spaces and line feeds between the numbers of a text.
pub fn put_byte(out: &mut Writer, b: u8)
    requires { Room out.old 1 }
    ensures { Puts out.old out.new (b ∷ []) }
{
    out.bytes[out.at] = b;
    out.at += 1;
}

// A word, or any other bytes, byte by byte: a copy whose length is known only as the program runs would ask memmove of whoever links it.
pub fn put_text(out: &mut Writer, text: &[u8])
    requires { Room out.old (length text.now) }
    ensures { Puts out.old out.new text.now }
{
    for (place, &b) in text.iter().enumerate() {
        out.bytes[out.at + place] = b;
    }
    out.at += text.len();
}

// Two bytes, the higher first.
#[tactic(auto, unfolding(crate::specs::Numbers::two_bytes))]
pub fn put_two(out: &mut Writer, n: u16)
    requires { Room out.old 2 }
    ensures wrote { Puts out.old out.new (two_bytes n) }
    ensures value { out.new.at ≡ out.old.at + 2 }
{
    put_text(out, &u16::to_be_bytes(n));
}

// Four bytes, the highest first.
#[tactic(auto, using(crate::proofs::Ends::four_be))]
pub fn put_four(out: &mut Writer, n: u32)
    requires { Room out.old 4 }
    ensures wrote { Puts out.old out.new (four_bytes n) }
    ensures value { out.new.at ≡ out.old.at + 4 }
{
    put_text(out, &u32::to_be_bytes(n));
}

// Eight bytes, the highest first.
#[tactic(auto, using(crate::proofs::Ends::eight_be))]
pub fn put_eight(out: &mut Writer, n: u64)
    requires { Room out.old 8 }
    ensures wrote { Puts out.old out.new (eight_bytes n) }
    ensures value { out.new.at ≡ out.old.at + 8 }
{
    put_text(out, &u64::to_be_bytes(n));
}
