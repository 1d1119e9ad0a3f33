// A refusal as text: `no` and its number.
ghost use Rattle.std.specs.Prelude.{◌≡◌, ◌≤◌, length};
ghost use Rattle.notation.specs.Texts.{text_of};
ghost use Rattle.syntax.specs.Faults.{shown};

use crate::decimal::push_decimal;
use crate::text::Text;
use syntax::fault::Fault;

// The text of a refusal. It is made within the caller, and so in its place and not copied there.
#[inline(always)]
pub fn refusal_text(fault: Fault) -> Text
    ensures text { text_of result ≡ shown fault }
    ensures len { length (text_of result) ≤ 9 }
{
    let mut text = Text::new();
    text.append(b"no ");
    push_decimal(&mut text, u32::from(u8::from(fault)));
    text
}
