// Names of variables: one to four letters a to z, kept as four bytes padded with zeros.
ghost use Rattle.std.specs.Prelude.{◌≡◌, ◌≤◌, true, length};
ghost use Rattle.syntax.specs.Conversions.{Finds};
ghost use Rattle.syntax.specs.Names.{blank, is_name, letters};
ghost use Rattle.syntax.specs.declared.name.Name.{Name};

use crate::fault::Fault;

// The most letters that a name has.
const MAX_LETTERS: usize = 4;

// Four bytes that may be a name. A caller can hold any four, so what takes one tests it. Names are
// ordered by the first byte in which they differ.
#[derive(Clone, Copy, Debug, Default, PartialEq, Eq, PartialOrd, Ord)]
pub struct Name(pub [u8; 4]);

impl Name {
    // How many letters stand before the padding.
    pub fn len(self) -> usize
        ensures value { result ≡ length (letters self.0) }
        ensures bound { result ≤ 4 }
    {
        self.0.iter().take_while(|b| b.is_ascii_lowercase()).count()
    }

    // Whether the four bytes are a name.
    pub fn is_valid(self) -> bool
        ensures { result ≡ is_name self.0 }
    {
        match self.len() {
            0 => false,
            n => is_blank(&self.0[n..]),
        }
    }
}

// The name that has these letters, if some name has.
impl TryFrom<&[u8]> for Name {
    type Error = Fault;

    ghost try_from_gives = { λ text r. Finds (λ n. (is_name n.0 ≡ true) × (letters n.0 ≡ text.now)) r };

    fn try_from(text: &[u8]) -> Result<Name, Fault> {
        if text.len() > MAX_LETTERS {
            return Err(Fault::Misfit);
        }
        let mut bytes = [0; 4];
        bytes[0..text.len()].copy_from_slice(text);
        let name = Name(bytes);
        if name.is_valid() && name.len() == text.len() {
            Ok(name)
        } else {
            Err(Fault::Misfit)
        }
    }
}

fn is_blank(bytes: &[u8]) -> bool
    ensures { result ≡ blank bytes.now }
{
    bytes.iter().all(|b| *b == 0)
}
