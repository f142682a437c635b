// Runs a case a number of times, for tools/speed to count instructions (docs/SPEED.md). It reads lines
// `CASE COUNT` from standard input, 65,536 bytes at most, and answers each with what came of the case.
#![tactic(auto)]

mod cases;
mod made;
mod told;

use crate::told::Told;
use text::words::Words;

// Writes a number and a byte behind it.
fn put(n: u64, behind: &[u8]) {
    io::print_decimal(1, n);
    io::write_all(1, behind);
}

// Writes what is told.
fn write(t: Told) {
    put(t.reported, b" ");
    put(t.ticks, b" ");
    put(t.fractions, b" ");
    put(t.values, b"\n");
}

// Runs a case, if it is known.
fn run(name: &[u8], count: u64) -> Option<Told> {
    match name {
        b"frame" => Some(cases::frames(count)),
        b"catchup" => Some(cases::catchups(count)),
        b"command" => Some(cases::commands(count)),
        b"update" => Some(cases::updates(count)),
        b"empty" => Some(cases::frames(0)),
        _ => None,
    }
}

// What a line asks for: a case's name, a count, and nothing more.
fn asked(line: &[u8]) -> Option<Told> {
    let mut words = Words::new(line);
    let name = words.next();
    let count = text::decimal(words.next())?;
    if !words.next().is_empty() {
        return None;
    }
    run(name, count)
}

fn answer(line: &[u8]) {
    match asked(line) {
        Some(t) => write(t),
        None => {
            io::write_all(1, b"error\n");
        }
    }
}

fn main() {
    let mut input = io::large_buffer();
    let n = io::read_full(0, &mut input);
    for line in input[..n].split_inclusive(|b| *b == b'\n') {
        answer(line.strip_suffix(b"\n").unwrap_or(line));
    }
}
