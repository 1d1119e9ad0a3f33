// Numbers as decimals with no leading zero.
ghost use Rattle.std.specs.Prelude.{◌≡◌, ◌+◌, ◌≤◌, ◌++◌, length, decimal};
ghost use Rattle.notation.specs.Decimals.{Valued};
ghost use Rattle.notation.specs.Texts.{text_of};

use crate::text::Text;
use syntax::argument::MAX_NUMBER;

// The most digits that a number has.
const MAX_DIGITS: usize = 6;

// The number, up to the greatest that a node may hold, that has this decimal.
pub fn read_decimal(text: &[u8]) -> Option<u32>
    ensures { Valued text.now result }
{
    if text.len() > MAX_DIGITS {
        return None;
    }
    read_digits(text)
}

// The same, from the last digit on.
fn read_digits(text: &[u8]) -> Option<u32>
    ensures { Valued text.now result }
{
    let (last, front) = text.split_last()?;
    if !last.is_ascii_digit() {
        return None;
    }
    let digit = (*last - b'0') as u32;
    if front.is_empty() {
        return Some(digit);
    }
    let high = read_digits(front)?;
    if high == 0 || high > MAX_NUMBER / 10 {
        return None;
    }
    Some(high * 10 + digit)
}

// Adds the decimal of a number to a text.
pub(crate) fn push_decimal(text: &mut Text, n: u32)
    requires { length (text_of text.old) + length (decimal n) ≤ 64 }
    ensures bytes { text_of text.new ≡ text_of text.old ++ decimal n }
    ensures len { length (text_of text.new) ≡ length (text_of text.old) + length (decimal n) }
{
    text.append(itoa::Buffer::new().format(n).as_bytes());
}
