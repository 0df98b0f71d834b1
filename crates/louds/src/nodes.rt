// Nodes of the sequence, numbered from 1 in level order: node m is the m-th one, and its children follow the m-th zero.
ghost use Rattle.std.specs.Prelude.{◌≡◌};
ghost use Rattle.keymap.specs.Bits.{bit};
ghost use Rattle.louds.specs.Nodes.{children_of, parent_of};

use crate::answers::Children;
use crate::bits::Sequence;

impl<'a> Sequence<'a> {
    // The children of node k: the ones after the k-th zero up to the next zero or the end. Without that zero there is
    // no such node.
    pub fn children(self, k: usize) -> Option<Children>
        ensures { result ≡ children_of (bit self.entry.words.now) self.entry.len k }
    {
        let start = self.zero_at(k)? + 1;
        let next = self.zero_from(start, 1).unwrap_or(self.len);
        Some(Children {
            // k - 1 of the bits before the zero are zeros, the others ones
            first: start - (k - 1),
            count: next - start,
        })
    }

    // The parent of node m: the count of zeros before the m-th one. Its number is 0 for a one before the first zero.
    pub fn parent(self, m: usize) -> Option<usize>
        ensures { result ≡ parent_of (bit self.entry.words.now) self.entry.len m }
    {
        let p = self.one_at(m)?;
        Some(p - (m - 1))
    }
}
