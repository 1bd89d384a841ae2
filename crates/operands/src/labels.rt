// Labels.
ghost use Rattle.std.specs.Prelude.{◌≡◌};
ghost use Rattle.operands.specs.Operands as of;

use crate::numbers::{Digits, read_number};
use std::cmp::min;

// One to sixteen letters, as two numbers: the first eight and the others, a byte a letter. No text
// of its own: `operands.specs.Operands.label` holds it so, and two are compared at once.
#[derive(Clone, Copy, PartialEq, Eq)]
pub struct Label {
    pub high: u64,
    pub low: u64,
}

// The label that a part is, if it is one.
pub fn read_label(part: &[u8]) -> Option<Label>
    ensures { of.named_as result ≡ of.label part.now }
{
    let n = part.len();
    if n == 0 || 16 < n {
        return None;
    }
    let (first, others) = part.split_at(min(8, n));
    Some(Label {
        high: read_number(first, Digits::Letters)?,
        low: read_number(others, Digits::Letters)?,
    })
}
