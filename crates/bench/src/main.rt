// The bench: calls on standard input, one a line, each answered with a line on standard output.
// docs/BENCH.md has the calls. Input has no cap: it is taken in portions, and what has been read is
// answered before more is read.
#![tactic(auto)]

mod families;
mod held;
mod holds;
mod limits;
mod questions;
mod reading;
mod station_calls;

use crate::held::Held;
use crate::reading::{Reading, TooLong};
use digits::Out;
use std::io::Stdin;
use text::Word;
use text::words::Words;

// Answers a line, and says whether that was written. A line that has no word, or whose first byte is a `#`, is skipped.
// Where it is no call, it is answered `error`.
fn answer(line: &[u8], out: &mut [u8], held: &mut Held) -> bool {
    let mut words = Words::new(line);
    let name = words.next();
    if name.is_empty() || line.starts_with(b"#") {
        return true;
    }
    let mut text = Out::new(out);
    match held::call(name, words, &mut text, held) {
        Some(()) => {
            let n = text.place();
            write(out, n)
        }
        None => error(),
    }
}

// Writes the first bytes of a buffer. They are never more than it has; the test is for the proof.
fn write(out: &[u8], n: usize) -> bool {
    n <= out.len() && io::write_all(1, &out[..n])
}

fn error() -> bool {
    io::write_all(1, b"error\n")
}

// A proved loop ends, and nothing says that the input does: it counts to a number of turns that no run comes to.
fn all(input: &mut Stdin, line: &mut [u8], portion: &mut [u8], out: &mut [u8]) {
    let mut held = Held::new();
    let mut reading = Reading::new();
    for _ in 0..u64::MAX {
        let written = match reading.next(input, line, portion) {
            Some(Ok(to)) => answer(text::part(line, Word { from: 0, to }), out, &mut held),
            Some(Err(TooLong)) => error(),
            // A line that is not whole yet has no answer, and nothing to fail.
            None => true,
        };
        if reading.ended || !written {
            return;
        }
    }
}

fn main(rt: HostRuntime) {
    let mut input = rt.stdin();
    let mut line = [0u8; 1024];
    let mut portion = io::large_buffer();
    let mut out = [0u8; 512];
    all(&mut input, &mut line, &mut portion, &mut out);
}
