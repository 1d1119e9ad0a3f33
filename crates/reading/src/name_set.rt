// A set of names, up to the 63 that a string lists, and the strings of such sets. Names that join in
// rising order stand in rising order.
ghost use Rattle.std.specs.Prelude.{◌≡◌, ◌+◌, ◌≤◌, [], ◌++◌, length, take, drop, if◌then◌else◌, None, Some};
ghost use Rattle.std.specs.Option.{option_to_list};
ghost use Rattle.reading.specs.NameSets.{kept, names_of};
ghost use Rattle.reading.specs.NameStrings.{allowed, fours, key as rank, rising, spelled};
ghost use Rattle.reading.specs.NamesRule.{add as added, insert as inserted, is_bound, join as joining, merge as merging};

use arrayvec::{ArrayVec, CapacityError};
use std::mem;
use syntax::name::Name;

// The most names that are listed.
const MOST_NAMES: usize = 63;

// The first byte of a string that lists names, and the only byte of one that stands for too many.
const LISTED: u8 = 3;

const MANY: u8 = 4;

#[derive(Drop)]
pub struct NameSet {
    names: ArrayVec<Name, MOST_NAMES>,
}

// There are more names than a string lists.
#[derive(Clone, Copy, Debug, PartialEq, Eq)]
pub struct TooMany;

impl From<CapacityError<Name>> for TooMany {
    fn from(_full: CapacityError<Name>) -> TooMany {
        TooMany
    }
}

// Names are ordered by their four bytes, the first of which counts most.
fn key(name: Name) -> u32
    ensures { result ≡ rank name }
{
    u32::from_be_bytes(name.0)
}

// A name takes its place among rising ones, and each that stands above it moves up by one. The
// last one finds no place, and is the answer; where the name was there already there is none.
fn place(names: &mut [Name], name: Name) -> Option<Name>
    ensures { inserted name names.old ≡ names.new ++ option_to_list result }
{
    let mut carried = name;
    for here in names {
        if key(carried) == key(*here) {
            return None;
        }
        if key(carried) < key(*here) {
            carried = mem::replace(here, carried);
        }
    }
    Some(carried)
}

impl NameSet {
    pub(crate) fn new() -> NameSet
        ensures { names_of result ≡ [] }
    {
        NameSet {
            names: ArrayVec::new(),
        }
    }

    // Adds a name, unless it is there.
    pub(crate) fn insert(&mut self, name: Name) -> Result<(), TooMany>
        ensures { kept result (names_of self.new) ≡ added name (Some (names_of self.old)) }
    {
        if let Some(last) = place(self.names.as_mut_slice(), name) {
            self.names.try_push(last)?;
        }
        Ok(())
    }

    // Adds the names that stand in bytes, four to a name, all but the one that is bound.
    fn join(&mut self, bound: Option<Name>, bytes: &[u8]) -> Result<(), TooMany>
        ensures { kept result (names_of self.new) ≡ joining bound (fours bytes.now) (Some (names_of self.old)) }
    {
        let mut held = [0; 4];
        let mut filled = 0;
        for b in bytes {
            held[filled] = *b;
            filled += 1;
            if filled == 4 {
                filled = 0;
                self.insert_free(bound, Name(held))?;
            }
        }
        Ok(())
    }

    // Adds a name, unless it is there or is the one that is bound.
    fn insert_free(&mut self, bound: Option<Name>, name: Name) -> Result<(), TooMany>
        ensures { kept result (names_of self.new) ≡ (if is_bound bound name then Some (names_of self.old) else added name (Some (names_of self.old))) }
    {
        if is_bound(bound, name) {
            return Ok(());
        }
        self.insert(name)
    }

    // Adds the names of a child's string, all but the one that is bound.
    pub(crate) fn merge(&mut self, bound: Option<Name>, text: &[u8]) -> Result<(), TooMany>
        ensures { kept result (names_of self.new) ≡ merging bound text.now (Some (names_of self.old)) }
    {
        match text {
            [MANY, ..] => Err(TooMany),
            [_, _, bytes @ ..] => self.join(bound, bytes),
            _ => Ok(()),
        }
    }

    // Writes the string that lists the set at the front of a buffer that has room for any.
    pub(crate) fn write(&self, out: &mut [u8]) -> usize
        requires { 254 ≤ length out.old }
        ensures long { result ≡ length (spelled (Some (names_of self.now))) }
        ensures wrote { out.new ≡ spelled (Some (names_of self.now)) ++ drop result out.old }
    {
        let names = self.names.as_slice();
        out[0] = LISTED;
        out[1] = names.len() as u8;
        for (i, name) in names.iter().enumerate() {
            put(out, 2 + 4 * i, *name);
        }
        2 + 4 * names.len()
    }
}

// Writes the string of too many names at the front of a buffer.
pub(crate) fn write_many(out: &mut [u8]) -> usize
    requires { 1 ≤ length out.old }
    ensures long { result ≡ length (spelled None) }
    ensures wrote { out.new ≡ spelled None ++ drop result out.old }
{
    out[0] = MANY;
    1
}

// Writes a name into a buffer.
fn put(out: &mut [u8], at: usize, name: Name)
    requires { at + 4 ≤ length out.old }
    ensures wrote { out.new ≡ take at out.old ++ (name.0 ++ drop (at + 4) out.old) }
    ensures long { length name.0 ≡ 4 }
{
    out[at..at + 4].copy_from_slice(&name.0);
}

fn is_bound(bound: Option<Name>, name: Name) -> bool
    ensures { result ≡ is_bound bound name }
{
    match bound {
        Some(other) => key(other) == key(name),
        None => false,
    }
}

// Whether names stand one after another, each after the one before it and the first after `last`.
// Bytes that are too few for a name are passed over.
fn rises(last: u32, bytes: &[u8]) -> bool
    ensures { result ≡ rising last (fours bytes.now) }
{
    let Some((four, rest)) = bytes.split_first_chunk::<4>() else {
        return true;
    };
    let name = Name(*four);
    if !name.is_valid() {
        return false;
    }
    let here = key(name);
    last < here && rises(here, rest)
}

// Whether a string is one of the names reading's.
pub(crate) fn is_allowed(text: &[u8]) -> bool
    ensures { result ≡ allowed text.now }
{
    let Some((first, rest)) = text.split_first() else {
        return false;
    };
    if *first == MANY {
        return rest.is_empty();
    }
    let Some((count, bytes)) = rest.split_first() else {
        return false;
    };
    let count = *count as usize;
    *first == LISTED && count <= MOST_NAMES && bytes.len() == 4 * count && rises(0, bytes)
}
