// Unification: pairs of cells are made equal, and then the parts of those, until none is left.
ghost use Rattle.std.specs.Prelude.{◌≡◌, ◌+◌, ◌≤◌, length};
ghost use Rattle.typing.specs.Cells as cells;
ghost use Rattle.typing.specs.Solutions.{Within};
ghost use Rattle.inference.specs.Worklists.{pairs_of, unified};

use crate::graph::Graph;
use crate::meeting::Clash;
use arrayvec::ArrayVec;

// How many pairs there can be: as many as cells, since a pair of parts takes the place of a cell that
// becomes a link.
pub const MOST_PAIRS: usize = 1440;

impl<'a> Graph<'a> {
    // Makes pairs of cells equal, the last one first.
    pub(crate) fn unify(
        &mut self,
        pairs: &mut ArrayVec<(usize, usize), MOST_PAIRS>,
    ) -> Result<(), Clash>
        requires within { Within (length self.old.cells.now) (pairs_of pairs.old) }
        requires room { length self.old.cells.now + length pairs.old.items ≤ 1440 }
        ensures { unified result self.new.cells.now ≡ cells.unify self.old.cells.now (pairs_of pairs.old) }
    {
        while let Some((a, b)) = pairs.pop() {
            if let Some(parts) = self.equate(a, b)? {
                pairs.push(parts.arguments);
                pairs.push(parts.functions);
            }
        }
        Ok(())
    }
}
