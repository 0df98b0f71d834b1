// Whether a node is below another.
ghost use Rattle.std.specs.Prelude.{◌≡◌};
ghost use Rattle.keymap.specs.Bits.{bit};
ghost use Rattle.climbs.specs.Below.{below_by};

use crate::perches::{parent_of, perch_at};
use louds::Sequence;

// Whether a node is the top or below it: ancestors have lower numbers, so the climb ends at the first that is not above
// the top's.
pub fn is_below(bits: Sequence, top: usize, node: usize) -> bool
    ensures { result ≡ below_by (bit bits.entry.words.now) bits.entry.len top node }
{
    let mut at = perch_at(bits, node);
    while top < at.node {
        let Some(up) = parent_of(bits, at) else {
            return false;
        };
        at = up;
    }
    at.node == top
}
