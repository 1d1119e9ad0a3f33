// Questions to the readings as lines of text, and the answers to them.
#![tactic(auto)]

ghost use Rattle.question.specs.Questions.{Answered};

use crate::digits::write_hex;
use crate::line::ask_line;
use notation::refusal::refusal_text;
use syntax::fault::Fault;

mod digits;
mod fields;
mod line;
mod node;
mod source;
mod strings;

// The length of a buffer that has room for every answer: two digits for each byte of a string.
pub const ANSWER_ROOM: usize = 2048;

// Writes the answer to a line, which has no newline, at the front of a buffer.
pub fn answer(line: &[u8], out: &mut [u8]) -> Result<usize, Fault>
    ensures { Answered line.now out.old out.new result }
{
    if out.len() < ANSWER_ROOM {
        return Err(Fault::ShortBuffer);
    }
    let mut text = [0; 1024];
    match ask_line(line, &mut text) {
        Ok(n) => Ok(write_hex(&text[0..n], out)),
        Err(fault) => refusal_text(fault).copy_to(out),
    }
}
