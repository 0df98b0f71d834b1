// Which of a node's children has a label: they are looked through from the first up to one that has it, since their
// labels need not rise.
ghost use Rattle.std.specs.Prelude.{◌≡◌, ◌+◌, ◌-◌};
ghost use Rattle.walks.specs.Rule.{lowest_by};

use crate::entries::entry_matches;

// The lowest child of a node with a label, of those that have from `from` to `to` - 1 ones before them.
fn child_among(labels: &[u16], node: usize, from: usize, to: usize, label: u8) -> Option<usize>
    ensures { result ≡ lowest_by labels.now node (to - from) (from + 1) label }
{
    let low = from.max(node).max(1);
    for at in low..to.min(labels.len() + 1) {
        if entry_matches(labels[at - 1], label) {
            return Some(at + 1);
        }
    }
    None
}

// The same, with a look at the first of them before any others: it is mostly the one.
pub fn child_within(labels: &[u16], node: usize, from: usize, to: usize, label: u8) -> Option<usize>
    ensures { result ≡ lowest_by labels.now node (to - from) (from + 1) label }
{
    if node == 0 {
        return child_among(labels, node, from, to, label);
    }
    let end = to.min(labels.len() + 1);
    let low = from.max(node);
    if end <= low {
        return None;
    }
    if entry_matches(labels[low - 1], label) {
        return Some(low + 1);
    }
    child_among(labels, node, low + 1, end, label)
}
