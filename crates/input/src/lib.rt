// A reader's bytes, read whole: what a program of this repository reads before it answers. What comes in on standard input is the
// operating system's; of a reader whose bytes are known the contracts say that these are what comes.
#![tactic(auto)]

ghost use Rattle.std.specs.Prelude.{◌≤◌, ◌<◌, length, take, IfOk, OnOk};
ghost use Rattle.std.specs.Io.KnownBytes.{Consumes, IsAtEnd};

use std::io;
use std::io::Read;

// Reads until the input ends, the buffer is full or a read fails, and answers how many bytes came, and of a read that failed its error:
// pipes and terminals give the input in parts.
pub fn read_what_comes<R: Read>(reader: &mut R, buffer: &mut [u8]) -> (usize, io::Result<()>)
    ensures within { result.0 ≤ length buffer.new }
    ensures bytes { Consumes (R.remaining reader.old) (R.remaining reader.new) (take result.0 buffer.new) }
    ensures end { OnOk result.1 (result.0 < length buffer.new → IsAtEnd (R.remaining reader.new)) }
{
    let mut done = 0usize;
    while done < buffer.len() {
        match reader.read(&mut buffer[done..]) {
            Ok(0) => return (done, Ok(())),
            Ok(more) => done += more,
            Err(failed) => return (done, Err(failed)),
        }
    }
    (done, Ok(()))
}

// Reads to the end of the input, or of the buffer, and answers how many bytes came.
pub fn read_all<R: Read>(reader: &mut R, buffer: &mut [u8]) -> io::Result<usize>
    ensures within { IfOk result (λ n. n ≤ length buffer.new) }
    ensures bytes { IfOk result (λ n. Consumes (R.remaining reader.old) (R.remaining reader.new) (take n buffer.new)) }
    ensures end { IfOk result (λ n. n < length buffer.new → IsAtEnd (R.remaining reader.new)) }
{
    let (done, ended) = read_what_comes(reader, buffer);
    ended?;
    Ok(done)
}
