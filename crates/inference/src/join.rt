// The forms of a node's children, joined in a draft: each over cells of its own for its variables.
ghost use Rattle.std.specs.Prelude.{◌≡◌, ◌+◌, ◌*◌, ◌≤◌, length, drop, IfOk, Ok};
ghost use Rattle.forms.specs.Outlines.{outlined};
ghost use Rattle.reading.specs.Readings.{texts};
ghost use Rattle.typing.specs.Parsing.{read_typing};
ghost use Rattle.inference.specs.Drafts.{state_of, unknowns};
ghost use Rattle.inference.specs.Joins.{AddsAll, AddsChild, AddsEntries, AddsForm, ReadsName, width_in};

use crate::base::Base;
use crate::draft::Draft;
use crate::entry::Entry;
use forms::outline::{Outline, read_typing};
use syntax::fault::Fault;
use syntax::name::Name;

// How many free cells there are beyond those of the children: as many as a node of any kind takes.
pub const SPARE: usize = 5;

// The name at the front of some bytes, and the bytes behind it.
fn read_name(bytes: &[u8]) -> Result<(Name, &[u8]), Fault>
    ensures { ReadsName bytes.now result }
{
    let (name, rest) = bytes.split_first_chunk::<4>().ok_or(Fault::Unlawful)?;
    Ok((Name(*name), rest))
}

// Adds so many entries off the front of some bytes, the last one first, and answers the bytes behind
// them.
fn add_entries<'a>(
    bytes: &'a [u8],
    count: usize,
    base: Base,
    draft: &mut Draft,
) -> Result<&'a [u8], Fault>
    ensures { AddsEntries base.cell count bytes.now (state_of draft.old) (state_of draft.new) result }
{
    if count == 0 {
        return Ok(bytes);
    }
    let (name, rest) = read_name(bytes)?;
    let (cell, rest) = draft.lay(rest, base)?;
    let rest = add_entries(rest, count - 1, base, draft)?;
    draft.put(Entry { name, cell })?;
    Ok(rest)
}

// Adds a form of so many entries, and answers the cell of its type.
fn add_form(bytes: &[u8], count: usize, base: Base, draft: &mut Draft) -> Result<usize, Fault>
    ensures { AddsForm base.cell count bytes.now (state_of draft.old) (state_of draft.new) result }
{
    let rest = add_entries(bytes, count, base, draft)?;
    let (cell, _) = draft.lay(rest, base)?;
    Ok(cell)
}

// Adds the form of a child, or that of a hole if the child is faulty, and answers the cell of its type.
fn add_child(text: &[u8], outline: Outline, base: Base, draft: &mut Draft) -> Result<usize, Fault>
    requires { outlined (read_typing 4 text.now) ≡ Ok outline }
    ensures { AddsChild base.cell text.now (state_of draft.old) (state_of draft.new) result }
{
    match outline.form {
        Ok(form) => add_form(&text[form.entries_at..], form.open_names, base, draft),
        Err(_) => Ok(base.cell),
    }
}

// The outline of a child's string, whose variables are few.
fn read_child(text: &[u8]) -> Result<Outline, Fault>
    ensures value { result ≡ outlined (read_typing 4 text.now) }
    ensures few { IfOk result (λ o. width_in o ≤ 240) }
{
    read_typing(text)
}

// How many cells the variables of a child take.
fn width(outline: Outline) -> usize
    ensures { result ≡ width_in outline }
{
    outline.form.map_or(1, |form| form.variables)
}

// Adds children to an empty draft, the last one first, each over cells of its own. The cells of their
// types are put at the front of `types`, and the answer is the first cell that no child has.
pub(crate) fn add_children(
    parts: &[&[u8]],
    base: Base,
    draft: &mut Draft,
    types: &mut [usize],
) -> Result<Base, Fault>
    requires types { length parts.now ≤ length types.old }
    requires base { base.cell + 240 * length parts.now ≤ 1440 }
    requires empty { state_of draft.old ≡ unknowns 0 }
    ensures { AddsAll base.cell (texts parts.now) (state_of draft.new) types.new result }
{
    let Some((text, others)) = parts.split_first() else {
        draft.push_free(base.cell + SPARE)?;
        return Ok(base);
    };
    let outline = read_child(text)?;
    let next = Base {
        cell: base.cell + width(outline),
    };
    let fresh = add_children(others, next, draft, &mut types[1..])?;
    types[0] = add_child(text, outline, base, draft)?;
    Ok(fresh)
}
