// A reader keeps a lent recording and its place: the form in which a caller walks a recording. Each function takes the
// struct apart or makes it, and leaves the work to `record_at`, over the plain slice and place.
#![tactic(auto)]

ghost use Rattle.std.specs.Prelude.{◌≡◌};

use recording::Read;

#[derive(Clone, Copy)]
pub struct Reader<'a> {
    pub trace: &'a [u8],
    pub at: usize,
}

impl<'a> Reader<'a> {
    ghost use Rattle.recording.specs.Recordings.{record_at};

    // A reader at a recording's start.
    pub fn new(trace: &'a [u8]) -> Reader<'a>
        ensures { (result.trace ≡ trace.entry) × (result.at ≡ 0) }
    {
        Reader { trace, at: 0 }
    }

    // What stands at the reader's place.
    pub fn next(&self) -> Read
        ensures { result ≡ record_at self.now.trace.now self.now.at }
    {
        recording::record_at(self.trace, self.at)
    }

    // The reader at another place of its recording.
    pub fn moved(self, at: usize) -> Reader<'a>
        ensures { (result.trace ≡ self.entry.trace) × (result.at ≡ at) }
    {
        Reader { at, ..self }
    }
}
