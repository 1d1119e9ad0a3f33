// How many nodes of a subtree are clashes, overlong, and holes, by the counts of the children.
ghost use Rattle.std.specs.Prelude.{◌≡◌, ◌+◌, min, MatchResult};
ghost use Rattle.reading.specs.Readings.{texts};
ghost use Rattle.typing.specs.Strings.{most};
ghost use Rattle.typing.specs.Typings.{is_hole};
ghost use Rattle.inference.specs.Outcomes.{clash_of, overlong_of};
ghost use Rattle.inference.specs.Tallies.{Sums, Tells, TellsNot, both};

use crate::outcome::{Outcome, clashes, overlongs};
use forms::outline::{MAX_COUNT, Tally, read_typing};
use syntax::fault::Fault;
use syntax::kind::Kind;

// The sums of the counts of a node's children, off their strings.
pub(crate) fn sum_tallies(parts: &[&[u8]]) -> Result<Tally, Fault>
    ensures { Sums (texts parts.now) result }
{
    let mut sum = Tally::default();
    for part in parts {
        sum = plus(sum, read_tally(part)?);
    }
    Ok(sum)
}

// The counts of one string.
fn read_tally(string: &[u8]) -> Result<Tally, Fault>
    ensures { MatchResult result (Tells string.now) (TellsNot string.now) }
{
    Ok(read_typing(string)?.tally)
}

// The counts together, which go no further than the most.
fn plus(a: Tally, b: Tally) -> Tally
    ensures { result ≡ both a b }
{
    Tally {
        clashes: a.clashes.saturating_add(b.clashes).min(MAX_COUNT),
        overlongs: a.overlongs.saturating_add(b.overlongs).min(MAX_COUNT),
        holes: a.holes.saturating_add(b.holes).min(MAX_COUNT),
    }
}

// The sums over a node's children, with the node itself.
pub(crate) fn with_node(sum: Tally, kind: Kind, outcome: &Outcome) -> Tally
    ensures clashes { result.clashes ≡ min most (clash_of outcome.now + sum.clashes) }
    ensures overlongs { result.overlongs ≡ min most (overlong_of outcome.now + sum.overlongs) }
    ensures holes { result.holes ≡ min most (is_hole kind + sum.holes) }
{
    let node = Tally {
        clashes: clashes(outcome),
        overlongs: overlongs(outcome),
        holes: u32::from(kind == Kind::Hole),
    };
    plus(node, sum)
}
