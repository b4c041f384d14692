// The listing program: reads a register on standard input and prints its listing.
#![tactic(auto)]

use std::io::Read;

// Reads the register, lists it into the text, and prints that, or says what it could not do. The longest register that can be accepted
// has 56,011 bytes, so one byte more tells that an input is too long; and the text has room for every listing. A listing that cannot be
// had whole is said to be none.
fn answer(rt: &impl Print, reader: &mut impl Read) -> Result<(), &'static str> {
    let mut input = [0; 56_012];
    let mut text = [0; 256_256];
    let n = input::read_all(reader, &mut input).map_err(|_| "cannot read the register")?;
    let end = listing::list(&input[..n], &mut text).ok_or("no room for the listing")?;
    rt.write_all(&text[..end])
        .map_err(|_| "cannot write the whole listing")
}

// What cannot be done is said on standard error; where that cannot be written either, nobody hears of it.
fn main(rt: HostRuntime) {
    if let Err(message) = answer(&rt, &mut rt.stdin()) {
        let _ = eprintln!(rt; "rings: {message}");
    }
}
