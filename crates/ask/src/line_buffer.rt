// A line as it comes in, byte by byte. Of a line that is too long only as much is kept as shows it.
ghost use Rattle.std.specs.Prelude.{◌≡◌, [], ◌∷◌, ◌++◌, length, if◌then◌else◌, nat_lt};
ghost use Rattle.ask.specs.LineBuffers.{kept};

use arrayvec::ArrayVec;

// One byte more than the longest line has.
const KEPT: usize = 4097;

#[derive(Drop)]
pub struct LineBuffer {
    bytes: ArrayVec<u8, KEPT>,
}

impl LineBuffer {
    pub fn new() -> LineBuffer
        ensures { kept result ≡ [] }
    {
        LineBuffer {
            bytes: ArrayVec::new(),
        }
    }

    // Adds a byte, unless the line is too long already.
    pub fn push(&mut self, b: u8)
        ensures { kept self.new ≡ (if nat_lt (length (kept self.old)) 4097 then kept self.old ++ b ∷ [] else kept self.old) }
    {
        let _ = self.bytes.try_push(b);
    }

    pub fn clear(&mut self)
        ensures { kept self.new ≡ [] }
    {
        self.bytes.clear();
    }

    pub fn is_begun(&self) -> bool
        ensures { result ≡ nat_lt 0 (length (kept self.now)) }
    {
        !self.bytes.is_empty()
    }

    pub fn bytes(&self) -> &[u8]
        ensures { result.now ≡ kept self.now }
    {
        self.bytes.as_slice()
    }
}
