// Whether bytes are a sheet file, and the size of the tree: one pass, in fixed memory. Recursion
// goes down only as far as nodes may lie; what lies deeper is passed over by a loop.
ghost use Rattle.std.specs.Prelude.{◌≡◌, ◌<◌, ◌≤◌, true, MatchOption};
ghost use Rattle.layout.specs.Groups.{Group, group};
ghost use Rattle.layout.specs.Readers.{ReadsBack};
ghost use Rattle.layout.specs.Scans.{HeightIsDepth, Measures, NoTrees, OneRule, Scanned};
ghost use Rattle.layout.specs.SymbolBytes.{symbol_bytes};
ghost use Rattle.syntax.specs.Arguments.{fits};

use crate::symbol_bytes::read_symbol;
use syntax::fault::Fault;

// The depth of the deepest node that a sheet can hold; the root's is 0.
pub const MAX_DEPTH: usize = 40;

// How many nodes a tree has, and the depth of its deepest node.
#[derive(Clone, Copy)]
pub struct Figures {
    pub nodes: usize,
    pub height: usize,
}

// What is known of trees that stand one after the other: the bytes behind them, how many nodes they
// have, and on how many levels, counted up to one past a limit.
#[derive(Clone, Copy)]
struct Measured<'a> {
    rest: &'a [u8],
    nodes: usize,
    levels: usize,
}

// Refuses what is no sheet file, then a node that lies too deep, then more nodes than the capacity.
pub fn scan(bytes: &[u8], capacity: usize) -> Result<Figures, Fault>
    ensures answer { Scanned bytes.now capacity result }
    ensures one { OneRule }
    ensures depth { HeightIsDepth }
    ensures numbers { ReadsBack Group group }
    ensures nodes { ReadsBack (λ s. fits s ≡ true) symbol_bytes }
{
    let Some(found) = measure(bytes, 1, MAX_DEPTH + 1) else {
        return Err(Fault::BadLayout);
    };
    if !found.rest.is_empty() {
        return Err(Fault::BadLayout);
    }
    if found.levels > MAX_DEPTH + 1 {
        return Err(Fault::TooDeep);
    }
    if found.nodes > capacity {
        return Err(Fault::TooMany);
    }
    Ok(Figures {
        nodes: found.nodes,
        height: found.levels - 1,
    })
}

// The next `count` trees, whose nodes may lie on `limit` levels.
fn measure(bytes: &[u8], count: usize, limit: usize) -> Option<Measured<'_>>
    requires few { count ≤ 3 }
    requires shallow { limit ≤ 41 }
    ensures { MatchOption result (NoTrees bytes.now count) (Measures bytes.now count limit) }
{
    if count == 0 {
        return Some(Measured {
            rest: bytes,
            nodes: 0,
            levels: 0,
        });
    }
    if limit == 0 {
        return pass_over(bytes, count);
    }
    let (symbol, rest) = read_symbol(bytes)?;
    let below = measure(rest, symbol.kind.arity(), limit - 1)?;
    let beside = measure(below.rest, count - 1, limit)?;
    Some(Measured {
        rest: beside.rest,
        nodes: 1 + below.nodes + beside.nodes,
        levels: (1 + below.levels).max(beside.levels),
    })
}

// The next trees, of which there are some, where no level is left.
fn pass_over(bytes: &[u8], count: usize) -> Option<Measured<'_>>
    requires { 0 < count }
    ensures { MatchOption result (NoTrees bytes.now count) (Measures bytes.now count 0) }
{
    let mut rest = bytes;
    let mut owed = count;
    let mut nodes = 0;
    while owed > 0 {
        if owed > rest.len() {
            return None;
        }
        let (symbol, after) = read_symbol(rest)?;
        rest = after;
        owed = owed - 1 + symbol.kind.arity();
        nodes += 1;
    }
    Some(Measured {
        rest,
        nodes,
        levels: 1,
    })
}
