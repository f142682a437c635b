// The program's own part: lines read from the input, in portions. Proved safe, with no equations: docs/EXCEPTIONS.md
// says why.
use std::io::{Read, Stdin};

// A line that is longer than the longest, of 1,024 bytes, its LF not counted: the line's buffer has as many.
#[derive(Clone, Copy)]
pub struct TooLong;

// Where the reading stands: the bytes of an unfinished line, the place in the portion and the portion's end, and
// whether the input has ended.
#[derive(Clone, Copy)]
pub struct Reading {
    pub count: Result<usize, TooLong>,
    pub at: usize,
    pub to: usize,
    pub ended: bool,
}

// More bytes of a line. Where they pass the longest line, none of them is kept.
fn keep(line: &mut [u8], count: Result<usize, TooLong>, bytes: &[u8]) -> Result<usize, TooLong> {
    let n = count?;
    let to = n.checked_add(bytes.len()).ok_or(TooLong)?;
    line.get_mut(n..to).ok_or(TooLong)?.copy_from_slice(bytes);
    Ok(to)
}

impl Reading {
    // Nothing is read.
    pub fn new() -> Reading {
        Reading {
            count: Ok(0),
            at: 0,
            to: 0,
            ended: false,
        }
    }

    // A line that has come to its end.
    fn whole(&mut self) -> Option<Result<usize, TooLong>> {
        let count = self.count;
        self.count = Ok(0);
        Some(count)
    }

    // Reads once. Where the input has ended, or cannot be read, a last line that has no LF is whole, since it is a call
    // too.
    fn read(&mut self, input: &mut Stdin, portion: &mut [u8]) -> Option<Result<usize, TooLong>> {
        self.at = 0;
        self.to = input.read(portion).unwrap_or(0);
        if self.to > 0 {
            return None;
        }
        self.ended = true;
        self.whole()
    }

    // Takes the portion's bytes up to a line's end. The portion has as many as were read; the `?` is for the proof.
    fn take(&mut self, line: &mut [u8], portion: &[u8]) -> Option<Result<usize, TooLong>> {
        let rest = portion.get(self.at..self.to)?;
        match rest.iter().position(|&b| b == b'\n') {
            Some(n) => {
                self.at += n + 1;
                self.count = keep(line, self.count, &rest[..n]);
                self.whole()
            }
            None => {
                self.at = self.to;
                self.count = keep(line, self.count, rest);
                None
            }
        }
    }

    // Goes on to the next line's end, or the portion's, and gives the length of a line that is whole. Reads where the
    // portion is used up.
    pub fn next(
        &mut self,
        input: &mut Stdin,
        line: &mut [u8],
        portion: &mut [u8],
    ) -> Option<Result<usize, TooLong>> {
        if self.at < self.to {
            return self.take(line, portion);
        }
        self.read(input, portion)
    }
}
