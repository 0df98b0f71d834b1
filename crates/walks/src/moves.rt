// One step down from a stand.
ghost use Rattle.std.specs.Prelude.{◌≡◌};
ghost use Rattle.keymap.specs.Bits.{bit};
ghost use Rattle.walks.specs.Stands.{down_from};

use crate::siblings::child_within;
use crate::stands::{Stand, kid_at, kids};
use louds::Sequence;

// One step down: the child with a label.
#[tactic(auto, unfolding(crate::specs::Stands::down_from))]
pub fn down(labels: &[u16], bits: Sequence, s: Stand, label: u8) -> Option<Stand>
    ensures { result ≡ down_from labels.now (bit bits.entry.words.now) bits.entry.len s label }
{
    let k = kids(bits, s);
    if k.first == 0 {
        return None;
    }
    // so many ones stand before the first of them
    let before = k.first - 1;
    let m = child_within(labels, s.node, before, before + k.count, label)?;
    Some(kid_at(bits, s.node, k.next, m))
}
