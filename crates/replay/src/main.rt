// Replays the recording on standard input, of 65,536 bytes at most, on a fresh station. Writes the reports of the
// clocks that live at its end, in slot order; or a refusal's number alone, with its place on standard error.
#![tactic(auto)]

use clock_table::Clocks;
use judge::Refusal;
use play::{Place, Refused};

// The most bytes that a recording may have. One more is room enough to see that there are more.
const MOST: usize = 65536;

fn number(r: Refusal) {
    io::print_decimal(1, u32::from(r) as u64);
    io::write_all(1, b"\n");
}

// A line on standard error, around the refusal's number and its place.
fn say(r: Refusal, name: &[u8], at: usize) {
    io::write_all(2, b"refused ");
    io::print_decimal(2, u32::from(r) as u64);
    io::write_all(2, name);
    io::print_decimal(2, at as u64);
    io::write_all(2, b"\n");
}

fn refuse(r: Refused) {
    number(r.why);
    match r.place {
        Place::Byte(at) => say(r.why, b" at byte ", at),
        Place::Record(k) => say(r.why, b" in record ", k),
    }
}

// Writes the first bytes of a buffer. They are never more than it has; the test is for the proof.
fn write(out: &[u8], n: usize) {
    if n <= out.len() {
        io::write_all(1, &out[..n]);
    }
}

// Sixteen reports have room in the buffer, so none is refused. The arm for a refusal is there since a `Result` has it.
fn show(t: &Clocks) {
    let mut out = [0u8; 1536];
    match report::reports(t, &mut out) {
        Ok(n) => write(&out, n),
        Err(r) => number(r),
    }
}

fn main() {
    let mut input = [0u8; 65537];
    let n = io::read_full(0, &mut input);
    if MOST < n {
        return number(Refusal::Buffer);
    }
    let r = play::replay(&input[..n]);
    match r.verdict {
        Ok(()) => show(&r.station.clocks),
        Err(e) => refuse(e),
    }
}
