// The type of a typing string, written out.
ghost use Rattle.std.specs.Prelude.{◌≡◌, length};
ghost use Rattle.typing.specs.Parsing.{read_typing};
ghost use Rattle.type_text.specs.Prints.{admitted};
ghost use Rattle.type_text.specs.TypeTexts.{TypeTextFits, WritesText, answer_text};

use crate::print::Printer;
use forms::outline::read_typing;
use syntax::fault::Fault;

// A buffer of this length has room for the text of any type of a typing string.
pub const MAX_TYPE_TEXT: usize = 4_000;

// Writes the text of a typing string's type at the front of a buffer, and answers its length.
pub fn write_type(text: &[u8], out: &mut [u8]) -> Result<usize, Fault>
    ensures answer { WritesText (answer_text (length out.old) (read_typing 4 text.now)) out.old out.new result }
    ensures fits { TypeTextFits }
{
    let at = admit(text, out.len())?;
    let mut printer = Printer::new(&text[at..], out);
    printer.print_type()?;
    Ok(printer.at)
}

// Where the type begins. A buffer that is too short is refused, then a string that is not lawful or has
// no form.
fn admit(text: &[u8], room: usize) -> Result<usize, Fault>
    ensures { result ≡ admitted room (read_typing 4 text.now) }
{
    if room < MAX_TYPE_TEXT {
        return Err(Fault::ShortBuffer);
    }
    let form = read_typing(text)?.form.map_err(|_| Fault::Unlawful)?;
    Ok(form.type_at)
}
