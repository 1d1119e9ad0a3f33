// A form as far as it is written: its bytes, and the free cells that have appeared in it, in the order
// of their first appearance.
ghost use Rattle.std.specs.Prelude.{◌≤◌, length};

use arrayvec::ArrayVec;
use forms::outline::MAX_FORM;

pub type FormText = ArrayVec<u8, MAX_FORM>;

// A form shows no more cells than it has bytes.
#[derive(Drop)]
pub struct Script {
    pub text: FormText,
    pub seen: ArrayVec<usize, MAX_FORM>,
    ghost short: { length text.items ≤ 240 },
    ghost fewer: { length seen.items ≤ length text.items },
}
