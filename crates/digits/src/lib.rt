// Text put into a buffer that the caller lends: bytes, and numbers as digits. A text of several pieces is put piece by
// piece, each behind the one before, and a piece that does not fit is left out. No function has a `requires`.
#![tactic(auto)]

ghost use Rattle.std.specs.Prelude.{◌≡◌, [], ◌∷◌};
ghost use Rattle.digits.specs.Digits.{number_text, flag_text, float_text};
ghost use Rattle.digits.specs.Puts.{line_end};

// A lent buffer, and the place in it where the next text goes: any place, also one that the buffer does not have.
#[derive(Drop)]
pub struct Out<'a> {
    pub bytes: &'a mut [u8],
    pub at: usize,
}

impl<'a> Out<'a> {
    ghost use Rattle.digits.specs.Outs.{put_in};

    // The next text goes to the buffer's start.
    pub fn new(bytes: &'a mut [u8]) -> Out<'a>
        ensures { result ≡ record { bytes = bytes.entry; at = 0 } }
    {
        Out { bytes, at: 0 }
    }

    // The place behind what was put.
    pub fn place(&self) -> usize
        ensures { result ≡ self.now.at }
    {
        self.at
    }

    // Puts bytes, where all of them fit; else nothing changes.
    pub fn put(&mut self, bytes: &[u8])
        ensures { self.new ≡ put_in self.old (bytes.now ∷ []) }
    {
        if self.bytes.len() < self.at {
            return;
        }
        if self.bytes.len() - self.at < bytes.len() {
            return;
        }
        let end = self.at + bytes.len();
        self.bytes[self.at..end].copy_from_slice(bytes);
        self.at = end;
    }

    // A number, decimal, with no zero in front.
    pub fn number(&mut self, n: u64)
        ensures { self.new ≡ put_in self.old (number_text n ∷ []) }
    {
        let mut digits = [0u8; 20];
        let count = io::decimal(n, &mut digits);
        self.put(&digits[..count]);
    }

    // A flag: 1 for true, 0 for false.
    pub fn flag(&mut self, b: bool)
        ensures { self.new ≡ put_in self.old (flag_text b ∷ []) }
    {
        self.put(if b { b"1" } else { b"0" });
    }

    // A double's bits, in 16 hexadecimal digits.
    pub fn float(&mut self, x: f64)
        ensures { self.new ≡ put_in self.old (float_text x ∷ []) }
    {
        let mut digits = [0u8; 16];
        let count = io::hex(doubles::bits(x), 16, &mut digits);
        self.put(&digits[..count]);
    }

    // A word in front of a number. Three methods of two lines each: one over a trait would need an impl for each, and
    // be no plainer.
    pub fn counted(&mut self, name: &[u8], n: u64)
        ensures { self.new ≡ put_in self.old (name.now ∷ number_text n ∷ []) }
    {
        self.put(name);
        self.number(n);
    }

    // A word in front of a flag.
    pub fn flagged(&mut self, name: &[u8], b: bool)
        ensures { self.new ≡ put_in self.old (name.now ∷ flag_text b ∷ []) }
    {
        self.put(name);
        self.flag(b);
    }

    // A word in front of a double.
    pub fn named(&mut self, name: &[u8], x: f64)
        ensures { self.new ≡ put_in self.old (name.now ∷ float_text x ∷ []) }
    {
        self.put(name);
        self.float(x);
    }

    // A line's end.
    pub fn end(&mut self)
        ensures { self.new ≡ put_in self.old (line_end ∷ []) }
    {
        self.put(b"\n");
    }
}
