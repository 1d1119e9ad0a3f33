// A reader of a form's bytes that meets its variables: each stands for a type or for a place.
ghost use Rattle.std.specs.Prelude.{◌≡◌, ◌+◌, ◌<◌, ◌≤◌, [], length};
ghost use Rattle.typing.specs.Parsing.{meet_variable};
ghost use Rattle.forms.specs.Skips.{Met, Named, Took, letters_of, sort_of};

use crate::number::read_number;
use crate::outline::MAX_FORM;
use arrayvec::ArrayVec;
use std::marker::Model;
use syntax::fault::Fault;
use syntax::name::Name;

// A term stands for a type, or for a place of a record.
#[derive(Clone, Copy, Debug, Default, PartialEq, Eq)]
pub(crate) enum Sort {
    #[default]
    Type,
    Place,
}

// The sorts of the variables met so far, in the order in which they first appear, and the bytes that
// are left.
#[derive(Drop)]
pub(crate) struct Reader<'a> {
    variables: ArrayVec<Sort, MAX_FORM>,
    rest: &'a [u8],
}

impl<'a> Model for Reader<'a> {
    ghost use Rattle.std.specs.Prelude.{◌+◌, ◌≤◌, length, map};
    ghost use Rattle.forms.specs.Skips.{Behind, sort_of};

    ghost Value = { Behind };

    ghost view = { λ r. (map sort_of r.variables.items, r.rest.now) };

    ghost invariant = { λ r. length r.variables.items + length r.rest.now ≤ 240 };
}

impl<'a> Reader<'a> {
    pub(crate) fn new(bytes: &'a [u8]) -> Reader<'a>
        requires { length bytes.now ≤ 240 }
        ensures { result ≡ ([], bytes.now) }
    {
        Reader {
            variables: ArrayVec::new(),
            rest: bytes,
        }
    }

    // How many bytes are left.
    pub(crate) fn left(&self) -> usize
        ensures { result ≡ length self.now.1 }
    {
        self.rest.len()
    }

    // How many variables have been met.
    pub(crate) fn met(&self) -> usize
        ensures { result ≡ length self.now.0 }
    {
        self.variables.len()
    }

    // The group number at the front. It leaves room for one more variable.
    pub(crate) fn number(&mut self) -> Result<u32, Fault>
        ensures { Took self.old self.new result }
    {
        let (number, rest) = read_number(self.rest)?;
        self.go_on(rest);
        Ok(number)
    }

    // Leaves these bytes. They come as an argument, in two words: straight from a pair they would be
    // copied across its words, and each next read would wait for the copy.
    fn go_on(&mut self, rest: &'a [u8])
        requires { length self.old.0 + length rest.now ≤ 240 }
        ensures { self.new ≡ (self.old.0, rest.now) }
    {
        self.rest = rest;
    }

    // The name at the front, if it comes after `last`.
    pub(crate) fn read_name(&mut self, last: Option<Name>) -> Result<Name, Fault>
        ensures { Named (letters_of last) self.old self.new result }
    {
        let (bytes, rest) = self.rest.split_first_chunk::<4>().ok_or(Fault::Unlawful)?;
        let name = Name(*bytes);
        if name.is_valid() && last < Some(name) {
            self.rest = rest;
            Ok(name)
        } else {
            Err(Fault::Unlawful)
        }
    }

    // A variable where a term of this sort is wanted: one that was met as such, or the next one.
    pub(crate) fn meet(&mut self, sort: Sort, k: u32) -> Result<(), Fault>
        requires { length self.old.0 + length self.old.1 < 240 }
        ensures { Met (meet_variable (sort_of sort) k self.old.0) self.old.1 self.new result }
    {
        let k = k as usize;
        if k == self.variables.len() {
            self.variables.push(sort);
            return Ok(());
        }
        if self.variables.as_slice().get(k) == Some(&sort) {
            return Ok(());
        }
        Err(Fault::Unlawful)
    }
}
