// Reading a typing string: its counts, and where its form stands.
ghost use Rattle.std.specs.Prelude.{◌≡◌};
ghost use Rattle.typing.specs.Parsing.{is_lawful, read_typing};
ghost use Rattle.forms.specs.Outlines.{Tallied, names_in, outlined, places_in, variables_in};

use crate::number::read_number;
use crate::status::read_status;
use syntax::fault::Fault;

// Counts go no further than this.
pub const MAX_COUNT: u32 = 16_383;

// The longest form in bytes. A variable takes at least one, so there are no more of them.
pub const MAX_FORM: usize = 240;

// How many nodes of a subtree are clashes, overlong, and holes.
#[derive(Clone, Copy, Debug, Default, PartialEq, Eq)]
pub struct Tally {
    pub clashes: u32,
    pub overlongs: u32,
    pub holes: u32,
}

// Why a subtree has no form: no form fits it, or its form is too long.
#[derive(Clone, Copy, Debug, PartialEq, Eq)]
pub enum Untyped {
    Clashed,
    Overlong,
}

// How many names a form lists and how many variables it has, and where in its string the first entry
// and the type begin.
#[derive(Clone, Copy, Debug, PartialEq, Eq)]
pub struct FormOutline {
    pub open_names: usize,
    pub variables: usize,
    pub entries_at: usize,
    pub type_at: usize,
}

// What a typing string tells without its terms: the counts, and its form if it has one.
#[derive(Clone, Copy, Debug, PartialEq, Eq)]
pub struct Outline {
    pub tally: Tally,
    pub form: Result<FormOutline, Untyped>,
}

impl Outline {
    // How many names are open: those that the form lists, and none where there is no form.
    pub fn open_names(&self) -> usize
        ensures { result ≡ names_in self.now }
    {
        self.form.map_or(0, |form| form.open_names)
    }

    // How many variables the form has, and none where there is no form.
    pub fn variables(&self) -> usize
        ensures { result ≡ variables_in self.now }
    {
        self.form.map_or(0, |form| form.variables)
    }

    // Where the entries and the type begin in a string of this length: at its end where there is no form.
    pub fn places(&self, len: usize) -> (usize, usize)
        ensures { result ≡ places_in len self.now }
    {
        self.form
            .map_or((len, len), |form| (form.entries_at, form.type_at))
    }
}

// The outline of a typing string; any other string is refused.
pub fn read_typing(text: &[u8]) -> Result<Outline, Fault>
    ensures { result ≡ outlined (read_typing 4 text.now) }
{
    let (status, rest) = text.split_first().ok_or(Fault::Unlawful)?;
    let (clashes, rest) = read_count(rest)?;
    let (overlongs, rest) = read_count(rest)?;
    let (holes, rest) = read_count(rest)?;
    let form = read_status(*status, rest, text.len())?;
    Ok(Outline {
        tally: Tally {
            clashes,
            overlongs,
            holes,
        },
        form,
    })
}

// Whether a string is a typing string.
pub fn is_lawful(text: &[u8]) -> bool
    ensures { result ≡ is_lawful 4 text.now }
{
    read_typing(text).is_ok()
}

// A count off the front of a string.
fn read_count(bytes: &[u8]) -> Result<(u32, &[u8]), Fault>
    ensures { Tallied bytes.now result }
{
    let (count, rest) = read_number(bytes)?;
    if count > MAX_COUNT {
        return Err(Fault::Unlawful);
    }
    Ok((count, rest))
}
