// Stands and their children, in a sequence of bits. A stand carries the place of its node's zero, so that a step down
// goes on from there:
// of these calls only `stand_at`, for a node that is given by its number, looks from bit 0 on.
ghost use Rattle.std.specs.Prelude.{◌≡◌};
ghost use Rattle.keymap.specs.Bits.{bit};
ghost use Rattle.walks.specs.Stands.{stand_at, is_stand, kids_from, kid_from};

use crate::answers::Kids;
use louds::Sequence;

// A node with the place of its zero.
#[derive(Clone, Copy)]
pub struct Stand {
    pub node: usize,
    // Where the node's zero is, or the end of the bits, behind which nothing stands; its children are the ones behind
    // it.
    pub zero: usize,
}

// The stand at any node. Its zero is looked for from bit 0 on.
pub fn stand_at(bits: Sequence, node: usize) -> Stand
    ensures { result ≡ stand_at (bit bits.entry.words.now) bits.entry.len node }
{
    Stand {
        node,
        zero: bits.zero_at(node).unwrap_or(bits.len),
    }
}

// Whether a zero can be a node's: it is inside, and as many zeros as the node says can stand up to it.
#[tactic(auto, unfolding(crate::specs::Stands::is_stand))]
fn is_stand(len: usize, node: usize, zero: usize) -> bool
    ensures { result ≡ is_stand len node zero }
{
    zero < len && node != 0 && node <= zero + 1
}

// The children of a stand: the ones behind its zero, up to the next zero or the end. A stand that cannot be one has
// none.
#[tactic(auto, unfolding(crate::specs::Stands::kids_from, crate::specs::Stands::is_stand))]
pub fn kids(bits: Sequence, s: Stand) -> Kids
    ensures { result ≡ kids_from (bit bits.entry.words.now) bits.entry.len s }
{
    if !is_stand(bits.len, s.node, s.zero) {
        return Kids {
            first: 0,
            count: 0,
            next: bits.len,
        };
    }
    let start = s.zero + 1;
    let next = bits.zero_from(start, 1).unwrap_or(bits.len);
    Kids {
        first: start - (s.node - 1),
        count: next - start,
        next,
    }
}

// The stand at node m, a child of node k: its zero is looked for from the one behind the children of k on.
#[tactic(auto, unfolding(crate::specs::Stands::kid_from))]
pub fn kid_at(bits: Sequence, k: usize, next: usize, m: usize) -> Stand
    ensures { result ≡ kid_from (bit bits.entry.words.now) bits.entry.len k next m }
{
    if m < k {
        return Stand {
            node: m,
            zero: bits.len,
        };
    }
    Stand {
        node: m,
        zero: bits.zero_from(next, m - k).unwrap_or(bits.len),
    }
}
