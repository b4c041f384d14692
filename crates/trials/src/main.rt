// The test program: reads cases on standard input and prints each case's label and what came of it. A case has the
// length of its label in two bytes and the label, a room in two bytes, the length of its register in two bytes and the
// register. A room of 65,535 asks for the listing; any other is the length of the answer buffer of a call.
#![tactic(auto)]

ghost use Rattle.std.specs.Prelude.{◌≤◌, ◌<◌, length};

use buffer::Writer;
use refusals::SentBack;
use std::io::Read;

// Prints bytes. What cannot be written is missed where the output is compared.
fn put(out: &impl Print, bytes: &[u8]) {
    let _ = out.write_all(bytes);
}

// The listing of a register.
fn list(out: &impl Print, register: &[u8], text: &mut [u8]) {
    let Some(end) = listing::list(register, text) else {
        put(out, b"no room\n");
        return;
    };
    put(out, &text[..end]);
}

// The outcome of a call that is lent the first bytes of the text as its answer buffer.
fn fill(out: &impl Print, register: &[u8], room: usize, text: &mut [u8]) {
    if text.len() < room {
        put(out, b"no such buffer\n");
        return;
    }
    let outcome = register::fill(register, &mut text[..room]);
    let Err(SentBack { refusal, place }) = outcome else {
        put(out, b"accepted\n");
        return;
    };
    let mut line = [0u8; 64];
    let mut written = Writer {
        bytes: &mut line,
        at: 0,
    };
    closing::put_refused(&mut written, u8::from(refusal), place);
    let end = written.at;
    put(out, &line[..end]);
}

fn say(out: &impl Print, label: &[u8]) {
    put(out, b"# ");
    put(out, label);
    put(out, b"\n");
}

fn run(out: &impl Print, register: &[u8], room: usize, text: &mut [u8]) {
    if room == 65_535 {
        list(out, register, text);
    } else {
        fill(out, register, room, text);
    }
}

// Runs the case at a position and answers where the next one starts. What is too short for a case ends the run.
fn run_case(out: &impl Print, cases: &[u8], at: usize, text: &mut [u8]) -> usize
    requires { (at < length cases.now) × (length cases.now ≤ 262_144) }
    ensures { (at < result) × (result ≤ length cases.now) }
{
    let label = at + 2;
    let middle = label + buffer::two(cases, at) as usize;
    let start = middle + 4;
    let end = start + buffer::two(cases, middle + 2) as usize;
    if cases.len() < end {
        return cases.len();
    }
    let room = buffer::two(cases, middle) as usize;
    say(out, &cases[label..middle]);
    run(out, &cases[start..end], room, text);
    end
}

fn run_all(out: &impl Print, cases: &[u8], text: &mut [u8])
    requires { length cases.now ≤ 262_144 }
{
    let mut at = 0usize;
    while at < cases.len() {
        at = run_case(out, cases, at, text);
    }
}

// The cases stop where the input or the buffer ends, or where a read fails: those that came before it are run.
fn read_and_run(out: &impl Print, reader: &mut impl Read, cases: &mut [u8], text: &mut [u8])
    requires { length cases.old ≤ 262_144 }
{
    let (n, _) = input::read_what_comes(reader, cases);
    run_all(out, &cases[..n], text);
}

// The text has room for every listing.
fn main(rt: HostRuntime) {
    let mut cases = [0; 262_144];
    let mut text = [0; 256_256];
    read_and_run(&rt, &mut rt.stdin(), &mut cases, &mut text);
}
