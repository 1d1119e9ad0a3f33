// The typing string of a node: its status, the counts, and the form if there is one.
ghost use Rattle.std.specs.Prelude.{◌≡◌, ◌+◌, ◌≤◌, ◌++◌, length, drop};
ghost use Rattle.layout.specs.Groups.{group};
ghost use Rattle.typing.specs.Strings.{longest, most};
ghost use Rattle.inference.specs.Outcomes.{bytes_of};
ghost use Rattle.inference.specs.TypingStrings.{put_at, string_of};

use crate::outcome::{Outcome, status};
use forms::outline::Tally;
use layout::group::group_bytes;

// Writes bytes into a buffer from a place on; the answer is the place behind them.
fn put(out: &mut [u8], at: usize, bytes: &[u8]) -> usize
    requires { at + length bytes.now ≤ length out.old }
    ensures end { result ≡ at + length bytes.now }
    ensures wrote { out.new ≡ put_at at bytes.now out.old }
{
    let end = at + bytes.len();
    out[at..end].copy_from_slice(bytes);
    end
}

// The same of a count, as a group number.
fn put_count(out: &mut [u8], at: usize, count: u32) -> usize
    requires held { count ≤ most }
    requires room { at + 2 ≤ length out.old }
    ensures end { result ≡ at + length (group count) }
    ensures bound { result ≤ at + 2 }
    ensures wrote { out.new ≡ put_at at (group count) out.old }
{
    put(out, at, &group_bytes(count).unwrap())
}

// Writes the string at the front of a buffer; the answer is its length.
pub(crate) fn write_string(outcome: &Outcome, tally: Tally, out: &mut [u8]) -> usize
    requires clashes { tally.clashes ≤ most }
    requires overlongs { tally.overlongs ≤ most }
    requires holes { tally.holes ≤ most }
    requires room { 247 ≤ length out.old }
    ensures long { result ≡ length (string_of outcome.now tally) }
    ensures wrote { out.new ≡ string_of outcome.now tally ++ drop result out.old }
{
    out[0] = status(outcome);
    let overlongs = put_count(out, 1, tally.clashes);
    let holes = put_count(out, overlongs, tally.overlongs);
    let form = put_count(out, holes, tally.holes);
    match outcome {
        Ok(text) => put(out, form, text),
        Err(_) => form,
    }
}
