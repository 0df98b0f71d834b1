// Gliding: going down while a node without value has one child, as all keys below the node then go through it.
ghost use Rattle.std.specs.Prelude.{◌≡◌};
ghost use Rattle.keymap.specs.Bits.{bit};
ghost use Rattle.walks.specs.Glide.{onward_from, glided_from};

use crate::entries::{counts_to, value_at};
use crate::stands::{Stand, kid_at, kids};
use louds::Sequence;

// Where a glide ended, and how many labels it passed.
#[derive(Clone, Copy)]
pub struct Glided {
    pub stand: Stand,
    pub steps: usize,
}

// The only child of a node without value, if it counts. Then its number is higher, so that a glide ends on any bits.
#[tactic(auto, unfolding(crate::specs::Glide::goes_through, crate::specs::Glide::only_kid))]
fn onward(labels: &[u16], values: &[u32], bits: Sequence, s: Stand) -> Option<Stand>
    ensures { result
        ≡ onward_from labels.now values.now (bit bits.entry.words.now) bits.entry.len s }
{
    if value_at(labels, values, s.node).is_some() {
        return None;
    }
    let k = kids(bits, s);
    if k.count != 1 {
        return None;
    }
    if !counts_to(labels.len() + 1, s.node, k.first) {
        return None;
    }
    Some(kid_at(bits, s.node, k.next, k.first))
}

// From a stand down to where the keys below it part.
pub fn glide(labels: &[u16], values: &[u32], bits: Sequence, s: Stand) -> Glided
    ensures { result
        ≡ glided_from labels.now values.now (bit bits.entry.words.now) bits.entry.len s }
{
    let mut stand = s;
    let mut steps: usize = 0;
    while let Some(t) = onward(labels, values, bits, stand) {
        stand = t;
        steps += 1;
    }
    Glided { stand, steps }
}
