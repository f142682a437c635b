// A recording's records, read off a slice from a place, line by line: RULES, recording.
#![tactic(auto)]

ghost use Rattle.std.specs.Prelude.{◌≡◌};
ghost use Rattle.recording.specs.Recordings.{record_at};
ghost use Rattle.recording.specs.Lengths.{LineLength};

use record::{Judged, Part, Record};

// The most bytes that a record has, its LFs among them.
const ROOM: usize = 64;

// What stands at a place of a recording: a record and the place behind it, or how the recording ends there.
#[derive(Clone, Copy)]
pub enum Read {
    Record(Record, usize),
    End,
    Unfinished,
    Bad(usize),
}

// The number of bytes before the first LF: `most` where there is none among so many, and all of them where the slice
// ends before.
fn line_length(s: &[u8], most: usize) -> usize
    ensures { LineLength most s.now result }
{
    s.iter().take(most).take_while(|&&b| b != b'\n').count()
}

// At a place behind the last byte the recording has ended. The plain function under `Reader`, over a slice and a place,
// as document 01 names the form.
pub fn record_at(s: &[u8], at: usize) -> Read
    ensures { result ≡ record_at s.now at }
{
    if at >= s.len() {
        return Read::End;
    }
    let mut part = Part::Op;
    let mut room: usize = ROOM;
    let mut i = at;
    // No `for`: where the next line begins, only the line before says.
    loop {
        let left = &s[i..];
        let n = line_length(left, room);
        // The record's first byte is there, and its last is not.
        if n >= left.len() {
            return Read::Unfinished;
        }
        // A byte more is there, and the record has no room for it, be it the line's LF or not.
        if n >= room {
            return Read::Bad(i);
        }
        match record::judge(part, &left[..n]) {
            Judged::Next(p) => {
                part = p;
                room -= n + 1;
                i += n + 1;
            }
            Judged::Whole(r) => return Read::Record(r, i + n + 1),
            Judged::Bad => return Read::Bad(i),
        }
    }
}
