// Perches and their parents, in a sequence of bits. A perch carries the place of its node's one, and a parent's one
// lies before it:
// only `perch_at`, with which a climb begins, looks from bit 0 on. A climb goes up as long as the parent's number is
// from 1 to the node's less 1, so it ends on any bits.
ghost use Rattle.std.specs.Prelude.{◌≡◌};
ghost use Rattle.keymap.specs.Bits.{bit};
ghost use Rattle.climbs.specs.Perches.{perch_at, has_parent, parent_from, depth_by};

use louds::{Sequence, one_back};

// A node with the place of its one.
#[derive(Clone, Copy)]
pub struct Perch {
    pub node: usize,
    // Where the node's one is, or the end of the bits.
    pub one: usize,
}

// The perch at any node. Its one is looked for from bit 0 on.
pub fn perch_at(bits: Sequence, node: usize) -> Perch
    ensures { result ≡ perch_at (bit bits.entry.words.now) bits.entry.len node }
{
    let Some(up) = bits.parent(node) else {
        return Perch {
            node,
            one: bits.len,
        };
    };
    // before it stand the ones of the nodes before, and as many zeros as its parent's number says
    Perch {
        node,
        one: up + (node - 1),
    }
}

// Whether the parent of a node whose one is at a place has a number from 1 to the node's less 1.
#[tactic(auto, unfolding(crate::specs::Perches::has_parent))]
fn has_parent(len: usize, node: usize, one: usize) -> bool
    ensures { result ≡ has_parent len node one }
{
    // one - (node - 1) zeros stand before the one
    one < len && node != 0 && node <= one && one - (node - 1) < node
}

// The parent of a perch: its number is the count of zeros before the node's one.
#[tactic(auto, unfolding(crate::specs::Perches::parent_from, crate::specs::Perches::has_parent))]
pub fn parent_of(bits: Sequence, at: Perch) -> Option<Perch>
    ensures { result ≡ parent_from (bit bits.entry.words.now) bits.entry.len at }
{
    if !has_parent(bits.len, at.node, at.one) {
        return None;
    }
    let up = at.one - (at.node - 1);
    Some(Perch {
        node: up,
        one: one_back(bits.words, at.one, at.node - up).unwrap_or(at.one),
    })
}

// How many parents a node has above it.
pub fn depth(bits: Sequence, node: usize) -> usize
    ensures { result ≡ depth_by (bit bits.entry.words.now) bits.entry.len node }
{
    let mut at = perch_at(bits, node);
    let mut count: usize = 0;
    while let Some(up) = parent_of(bits, at) {
        at = up;
        count += 1;
    }
    count
}
