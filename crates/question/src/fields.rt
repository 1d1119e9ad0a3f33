// The fields of a line, which one space parts.
ghost use Rattle.std.specs.Prelude.{◌≡◌, ◌+◌, ◌≤◌, ◌∷◌, length, ◌==◌, position};
ghost use Rattle.question.specs.Fields.{are_strings, fields, fields_in, is_dash, is_string, length_in};

use crate::digits::is_hex;

// Where the first space stands.
fn find_space(text: &[u8]) -> Option<usize>
    ensures { result ≡ position (λ b. b == 32) text.now }
{
    text.iter().position(|b| *b == b' ')
}

// The first field of a text, and what is left of the text behind the space after it.
pub(crate) fn split_field(text: &[u8]) -> (&[u8], Option<&[u8]>)
    ensures value { fields text.now ≡ result.0.now ∷ fields_in result.1 }
    ensures len { length result.0.now + length_in result.1 ≤ length text.now }
{
    match find_space(text) {
        Some(i) => (&text[..i], Some(&text[i + 1..])),
        None => (text, None),
    }
}

// Whether a field is a minus sign.
pub(crate) fn is_dash(field: &[u8]) -> bool
    ensures { result ≡ is_dash field.now }
{
    matches!(field, b"-")
}

// Whether a field is a child's string.
fn is_string(field: &[u8]) -> bool
    ensures { result ≡ is_string field.now }
{
    is_dash(field) || (!field.is_empty() && is_hex(field))
}

// Whether each field of what is left of a line is a child's string.
pub(crate) fn are_strings(rest: Option<&[u8]>) -> bool
    ensures { result ≡ are_strings (fields_in rest.entry) }
{
    let mut left = rest;
    while let Some(text) = left {
        let (field, after) = split_field(text);
        if !is_string(field) {
            return false;
        }
        left = after;
    }
    true
}
