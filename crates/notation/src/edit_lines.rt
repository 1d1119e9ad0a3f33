// The edit lines that build the tree of a sheet file from a single hole.
ghost use Rattle.std.specs.Prelude.{◌≡◌, ◌+◌, ◌≤◌, true, ◌++◌, length, OnSome};
ghost use Rattle.notation.specs.ArgumentTexts.{ParsesBack, field_of};
ghost use Rattle.notation.specs.EditAnswers.{Adds, AddsLines, Answered, WritesFile};
ghost use Rattle.notation.specs.Edits.{Rebuilds, line_at, no_line, spaced};
ghost use Rattle.notation.specs.Texts.{text_of};
ghost use Rattle.syntax.specs.Arguments.{fits, sound};

use crate::argument_text::push_argument;
use crate::refusal::refusal_text;
use crate::text::Text;
use arrayvec::ArrayVec;
use layout::scan::{MAX_DEPTH, scan};
use layout::symbol_bytes::read_symbol;
use syntax::argument::{Argument, Symbol};
use syntax::fault::Fault;

// The most nodes of a tree that is written out.
pub const MAX_NODES: usize = 1024;

// The longest answer: for each node a line of 56 bytes, with a path of forty steps, a word of four
// letters and an argument of six digits.
pub const MAX_ANSWER: usize = 57_344;

// The longest path as text: a dot, and a digit for each level below the root.
const MAX_PATH: usize = MAX_DEPTH + 1;

type Path = ArrayVec<u8, MAX_PATH>;

// Adds the field of an argument, with the space before it, to a text.
fn push_field(text: &mut Text, argument: Argument)
    requires sound { sound argument ≡ true }
    requires room { length (text_of text.old) + 7 ≤ 64 }
    ensures bytes { text_of text.new ≡ text_of text.old ++ spaced (field_of argument) }
    ensures len { length (text_of text.new) ≤ length (text_of text.old) + 7 }
{
    match argument {
        Argument::Nothing => {}
        _ => {
            text.push(b' ');
            push_argument(text, argument);
        }
    }
}

// The line that puts a node in at a path.
fn put_line(path: &Path, symbol: Symbol) -> Text
    requires { fits symbol ≡ true }
    ensures { text_of result ≡ line_at path.now.items symbol }
{
    let mut text = Text::new();
    text.append(b"p ");
    text.append(path.as_slice());
    text.push(b' ');
    text.append(symbol.kind.word());
    push_field(&mut text, symbol.argument);
    text.push(b'\n');
    text
}

// The line that says that something was refused.
fn no_line(fault: Fault) -> Text
    ensures text { text_of result ≡ no_line fault }
    ensures len { length (text_of result) ≤ 64 }
{
    let mut text = refusal_text(fault);
    text.push(b'\n');
    text
}

// Adds the line of a node to a buffer that is written up to `at`, and answers how far it is then.
fn write_line(path: &Path, symbol: Symbol, out: &mut [u8], at: usize) -> Option<usize>
    requires { fits symbol ≡ true }
    ensures { Adds (line_at path.now.items symbol) at out.old out.new result }
{
    if at > out.len() {
        return None;
    }
    let n = put_line(path, symbol).copy_to(&mut out[at..]).ok()?;
    Some(at + n)
}

// Adds the lines of the next `count` trees of a file, the children from `next` on of the node at a
// path. The path is lent while the lines below are written, and with an answer comes back as it was.
fn write_trees<'a>(
    bytes: &'a [u8],
    path: &mut Path,
    next: u8,
    count: usize,
    out: &mut [u8],
    at: usize,
) -> Option<(&'a [u8], usize)>
    requires { next + count ≤ 3 }
    ensures path { OnSome result (path.new.items ≡ path.old.items) }
    ensures lines { AddsLines bytes.now path.old.items next count at out.old out.new result }
{
    if count == 0 {
        return Some((bytes, at));
    }
    if path.is_full() {
        return None;
    }
    let (symbol, rest) = read_symbol(bytes)?;
    path.push(b'0' + next);
    let at = write_line(path, symbol, out, at)?;
    let (rest, at) = write_trees(rest, path, 0, symbol.kind.arity(), out, at)?;
    let _ = path.pop();
    write_trees(rest, path, next + 1, count - 1, out, at)
}

// The lines of a whole file, from the front of a buffer on.
fn write_tree(file: &[u8], out: &mut [u8]) -> Option<usize>
    ensures { WritesFile file.now out.old out.new result }
{
    let (symbol, rest) = read_symbol(file)?;
    let mut path = Path::new();
    path.push(b'.');
    let at = write_line(&path, symbol, out, 0)?;
    let (_, at) = write_trees(rest, &mut path, 0, symbol.kind.arity(), out, at)?;
    Some(at)
}

// Writes the lines, or the line of a refusal, at the front of a buffer that has room for every answer.
pub fn write_edit_lines(file: &[u8], out: &mut [u8]) -> Result<usize, Fault>
    ensures answer { Answered file.now out.old out.new result }
    ensures meaning { Rebuilds }
    ensures fields { ParsesBack }
{
    if out.len() < MAX_ANSWER {
        return Err(Fault::ShortBuffer);
    }
    match scan(file, MAX_NODES) {
        Err(fault) => no_line(fault).copy_to(out),
        // A file that was scanned has a tree, and there is room for its lines.
        Ok(_) => write_tree(file, out).ok_or(Fault::BadLayout),
    }
}
