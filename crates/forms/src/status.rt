// What stands behind the counts of a typing string: a form, or nothing.
ghost use Rattle.std.specs.Prelude.{◌≡◌, ◌≤◌, length};
ghost use Rattle.typing.specs.Parsing.{read_form, read_status};
ghost use Rattle.forms.specs.Outlines.{bare, shaped, whole};

use crate::outline::{FormOutline, MAX_FORM, Untyped};
use crate::reader::Reader;
use syntax::fault::Fault;

// What the status byte says of the bytes behind the counts, which end where the string does. It stands
// within its one caller, as does the form's reader here, so that their answers are not copied.
#[inline(always)]
pub(crate) fn read_status(
    status: u8,
    bytes: &[u8],
    end: usize,
) -> Result<Result<FormOutline, Untyped>, Fault>
    requires { length bytes.now ≤ end }
    ensures { result ≡ shaped end (read_status 4 status bytes.now) }
{
    match status {
        0 => Ok(Ok(read_form(bytes, end)?)),
        1 => without_form(Untyped::Clashed, bytes),
        2 => without_form(Untyped::Overlong, bytes),
        _ => Err(Fault::Unlawful),
    }
}

// A status that nothing stands behind.
fn without_form(why: Untyped, bytes: &[u8]) -> Result<Result<FormOutline, Untyped>, Fault>
    ensures { result ≡ bare why (length bytes.now) }
{
    if bytes.is_empty() {
        Ok(Err(why))
    } else {
        Err(Fault::Unlawful)
    }
}

// The outline of a form that ends where its string does.
#[inline(always)]
fn read_form(bytes: &[u8], end: usize) -> Result<FormOutline, Fault>
    requires { length bytes.now ≤ end }
    ensures { result ≡ whole end (read_form 4 bytes.now) }
{
    if bytes.len() > MAX_FORM {
        return Err(Fault::Unlawful);
    }
    let mut reader = Reader::new(bytes);
    let open_names = reader.number()?;
    let entries_at = end - reader.left();
    reader.read_entries(open_names)?;
    let type_at = end - reader.left();
    reader.read_type()?;
    if reader.left() > 0 {
        return Err(Fault::Unlawful);
    }
    Ok(FormOutline {
        open_names: open_names as usize,
        variables: reader.met(),
        entries_at,
        type_at,
    })
}
