// Nodes as they stand in a sheet file, written.
ghost use Rattle.std.specs.Prelude.{◌≡◌, ◌+◌, ◌≤◌, true, ◌++◌, length};
ghost use Rattle.layout.specs.SymbolBytes.{argument_bytes, symbol_bytes};
ghost use Rattle.notation.specs.Texts.{WroteIf, text_of};
ghost use Rattle.syntax.specs.Arguments.{fits, sound};

use crate::argument_text::push_letters;
use crate::group::push_group;
use crate::text::Text;
use syntax::argument::{Argument, Symbol};
use syntax::fault::Fault;

// Writes a node, as it stands in a file, at the front of a buffer.
pub fn write_symbol(symbol: Symbol, out: &mut [u8]) -> Result<usize, Fault>
    ensures { WroteIf (fits symbol) (symbol_bytes symbol) out.old out.new result }
{
    symbol.fit()?;
    let mut text = Text::new();
    push_group(&mut text, u32::from(symbol.kind));
    push_argument_bytes(&mut text, symbol.argument);
    text.copy_to(out)
}

fn push_argument_bytes(text: &mut Text, argument: Argument)
    requires sound { sound argument ≡ true }
    requires room { length (text_of text.old) + 5 ≤ 64 }
    ensures { text_of text.new ≡ text_of text.old ++ argument_bytes argument }
{
    match argument {
        Argument::Nothing => {}
        Argument::Number(n) => push_group(text, n),
        Argument::Name(name) => {
            push_group(text, name.len() as u32);
            push_letters(text, name);
        }
        Argument::Label(label) => push_group(text, u32::from(label)),
    }
}
