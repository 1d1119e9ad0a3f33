// A node in a sheet file: the code of its kind, and its argument.
ghost use Rattle.std.specs.Prelude.{◌≡◌, true};
ghost use Rattle.layout.specs.Readers.{Reads};
ghost use Rattle.layout.specs.SymbolBytes.{argument_bytes, symbol_bytes};
ghost use Rattle.syntax.specs.Arguments.{fits, of_sort};
ghost use Rattle.syntax.specs.declared.kind.Sort.TheVariants as sort;

use crate::group::read_group;
use syntax::argument::{Argument, MAX_NUMBER, Symbol};
use syntax::kind::{Kind, Sort};
use syntax::label::Label;
use syntax::name::Name;

// The node that stands at the front of a file, and the bytes behind it.
pub fn read_symbol(bytes: &[u8]) -> Option<(Symbol, &[u8])>
    ensures { Reads (λ s. fits s ≡ true) symbol_bytes bytes.now result }
{
    let (code, rest) = read_group(bytes)?;
    let kind = Kind::try_from(code).ok()?;
    let (argument, rest) = read_argument(kind.sort(), rest)?;
    Some((Symbol { kind, argument }, rest))
}

fn read_argument(sort: Sort, bytes: &[u8]) -> Option<(Argument, &[u8])>
    ensures { Reads (λ a. of_sort sort a ≡ true) argument_bytes bytes.now result }
{
    match sort {
        Sort::Nothing => Some((Argument::Nothing, bytes)),
        Sort::Number => read_number(bytes),
        Sort::Name => read_name(bytes),
        Sort::Label => read_label(bytes),
    }
}

fn read_number(bytes: &[u8]) -> Option<(Argument, &[u8])>
    ensures { Reads (λ a. of_sort sort.Number a ≡ true) argument_bytes bytes.now result }
{
    let (n, rest) = read_group(bytes)?;
    if n > MAX_NUMBER {
        return None;
    }
    Some((Argument::Number(n), rest))
}

fn read_name(bytes: &[u8]) -> Option<(Argument, &[u8])>
    ensures { Reads (λ a. of_sort sort.Name a ≡ true) argument_bytes bytes.now result }
{
    let (len, rest) = read_group(bytes)?;
    let len = len as usize;
    if len > rest.len() {
        return None;
    }
    let (letters, rest) = rest.split_at(len);
    let name = Name::try_from(letters).ok()?;
    Some((Argument::Name(name), rest))
}

fn read_label(bytes: &[u8]) -> Option<(Argument, &[u8])>
    ensures { Reads (λ a. of_sort sort.Label a ≡ true) argument_bytes bytes.now result }
{
    let (code, rest) = read_group(bytes)?;
    let label = Label::try_from(code).ok()?;
    Some((Argument::Label(label), rest))
}
