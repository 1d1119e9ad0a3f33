// Group numbers, written.
ghost use Rattle.std.specs.Prelude.{◌≡◌, ◌+◌, ◌<◌, ◌≤◌, ◌++◌, length, nat_lt};
ghost use Rattle.layout.specs.Groups.{Group, bound, group};
ghost use Rattle.notation.specs.Texts.{WroteIf, text_of};

use crate::text::Text;
use layout::group::group_bytes;
use syntax::fault::Fault;

// Writes a group number at the front of a buffer.
pub fn write_group(value: u32, out: &mut [u8]) -> Result<usize, Fault>
    ensures { WroteIf (nat_lt value (bound 2)) (group value) out.old out.new result }
{
    let bytes = group_bytes(value).ok_or(Fault::Misfit)?;
    let n = bytes.len();
    if n > out.len() {
        return Err(Fault::ShortBuffer);
    }
    out[..n].copy_from_slice(bytes.as_slice());
    Ok(n)
}

// Adds a group number to a text.
pub(crate) fn push_group(text: &mut Text, value: u32)
    requires group { Group value }
    requires room { length (text_of text.old) + 3 ≤ 64 }
    ensures { text_of text.new ≡ text_of text.old ++ group value }
{
    if let Some(bytes) = group_bytes(value) {
        for b in bytes.as_slice() {
            text.push(*b);
        }
    }
}
