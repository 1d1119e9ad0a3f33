// Two questions to one reading, the second over the answer to the first: what is known of any
// reading is enough to say what comes of them.
ghost use Rattle.std.specs.Prelude.{[], ◌∷◌};
ghost use Rattle.reading.specs.Readings.{Asked, texts};
ghost use Rattle.reading.specs.Twice.{Twice};

use crate::Reading;
use syntax::argument::Symbol;
use syntax::fault::Fault;

// Asks for a node, and then for one above it that has no other child. The lower string is left in
// the work buffer.
pub fn ask_twice<R: Reading>(
    reading: &mut R,
    lower: Symbol,
    parts: &[&[u8]],
    upper: Symbol,
    work: &mut [u8],
    out: &mut [u8],
) -> Result<usize, Fault>
    ensures { Twice R.means R.metered reading.old reading.new lower (texts parts.now) upper work.old work.new out.old out.new result }
{
    let n = reading.ask(lower.kind, lower.argument, parts, work)?;
    ask_over(reading, upper, &work[0..n], out)
}

// Asks for a node that has one child.
fn ask_over<R: Reading>(
    reading: &mut R,
    upper: Symbol,
    text: &[u8],
    out: &mut [u8],
) -> Result<usize, Fault>
    ensures { Asked R.means R.metered reading.old reading.new upper (text.now ∷ []) out.old out.new result }
{
    reading.ask(upper.kind, upper.argument, &[text], out)
}
