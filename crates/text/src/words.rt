// The words of a line, read one behind the other.
ghost use Rattle.std.specs.Prelude.{◌≡◌, None, length};
ghost use Rattle.text.specs.Words.{word_at, part_of};

use crate::{next_word, part};

#[derive(Clone, Copy)]
pub struct Words<'a> {
    pub line: &'a [u8],
    pub at: usize,
}

impl<'a> Words<'a> {
    // All words of a line.
    pub fn new(line: &'a [u8]) -> Words<'a>
        ensures { result ≡ record { line = line.entry; at = 0 } }
    {
        Words { line, at: 0 }
    }

    // The next word, of no bytes where none is left.
    pub fn next(&mut self) -> &'a [u8]
        ensures word { result.now ≡ part_of self.old.line.now (word_at self.old.line.now self.old.at) }
        ensures behind { self.new ≡ record self.old { at = (word_at self.old.line.now self.old.at).to } }
    {
        let w = next_word(self.line, self.at);
        self.at = w.to;
        part(self.line, w)
    }

    // Nothing could be read: no word is left.
    pub fn stop<T>(&mut self) -> Option<T>
        ensures nothing { result ≡ None }
        ensures at_end { self.new ≡ record self.old { at = length self.old.line.now } }
    {
        self.at = self.line.len();
        None
    }
}
