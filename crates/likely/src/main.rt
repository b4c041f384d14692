// The program for likely scenarios: reads a question on standard input, one line, and prints its listing.
#![tactic(auto)]

use std::io::Read;

// Reads the question, lists it into the text, and prints that, or says what it could not do. The longest question that is looked at
// has 1,000 bytes, so one byte more tells that an input is too long. A listing that cannot be had whole is said to be none.
fn answer(rt: &impl Print, reader: &mut impl Read) -> Result<(), &'static str> {
    let mut asked = [0; 1_001];
    let mut text = [0; 128];
    let n = input::read_all(reader, &mut asked).map_err(|_| "cannot read the question")?;
    let end = likely_listing::list(&asked[..n], &mut text);
    rt.write_all(&text[..end])
        .map_err(|_| "cannot write the whole listing")
}

// What cannot be done is said on standard error; where that cannot be written either, nobody hears of it.
fn main(rt: HostRuntime) {
    if let Err(message) = answer(&rt, &mut rt.stdin()) {
        let _ = eprintln!(rt; "likely: {message}");
    }
}
