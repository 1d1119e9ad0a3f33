// How a text is made, piece by piece, and how it is written out.
ghost use Rattle.std.specs.Prelude.{◌≡◌, ◌+◌, ◌<◌, ◌≤◌, [], ◌∷◌, ◌++◌, length};
ghost use Rattle.notation.specs.Texts.{Wrote, text_of};

use crate::text::{ROOM, Text};
use syntax::fault::Fault;

impl Text {
    pub(crate) fn new() -> Text
        ensures bytes { text_of result ≡ [] }
        ensures len { length (text_of result) ≡ 0 }
    {
        Text {
            bytes: [0; ROOM],
            len: 0,
        }
    }

    // Adds a byte, for which there is room.
    pub(crate) fn push(&mut self, b: u8)
        requires { length (text_of self.old) < 64 }
        ensures bytes { text_of self.new ≡ text_of self.old ++ b ∷ [] }
        ensures len { length (text_of self.new) ≡ length (text_of self.old) + 1 }
    {
        self.bytes[self.len] = b;
        self.len += 1;
    }

    // Adds bytes, for which there is room.
    pub(crate) fn append(&mut self, more: &[u8])
        requires { length (text_of self.old) + length more.now ≤ 64 }
        ensures bytes { text_of self.new ≡ text_of self.old ++ more.now }
        ensures len { length (text_of self.new) ≡ length (text_of self.old) + length more.now }
    {
        let end = self.len + more.len();
        self.bytes[self.len..end].copy_from_slice(more);
        self.len = end;
    }

    // Writes the text at the front of a buffer, if it fits.
    pub fn copy_to(&self, out: &mut [u8]) -> Result<usize, Fault>
        ensures { Wrote (text_of self.now) out.old out.new result }
    {
        let n = self.len;
        if n > out.len() {
            return Err(Fault::ShortBuffer);
        }
        out[..n].copy_from_slice(&self.bytes[..n]);
        Ok(n)
    }
}
