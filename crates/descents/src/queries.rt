// Along a query from the root: whole words first, and then by stands.
ghost use Rattle.std.specs.Prelude.{◌≡◌, drop, Some};
ghost use Rattle.keymap.specs.Bits.{bit};
ghost use Rattle.walks.specs.Rule.{walked};
ghost use Rattle.walks.specs.Stands.{down_along, reached_at};
ghost use Rattle.descents.specs.Far.{stand_near, ended_at};

use crate::far::{Headway, go_far, stand_near};
use louds::Sequence;
use walks::moves::down;
use walks::stands::Stand;

// Where a walk ended: at a node whose zero was not looked for yet, as whole words leave it (`far::Headway`), or at a
// stand.
#[derive(Clone, Copy)]
enum Ended {
    Near {
        node: usize,
        kept: usize,
        left: usize,
    },
    At(Stand),
}

// Down along a query from its step `steps` on, from the node that whole words left.
fn go_on(
    labels: &[u16],
    bits: Sequence,
    query: &[u8],
    node: usize,
    kept: usize,
    left: usize,
    steps: usize,
) -> Option<Stand>
    ensures { result
        ≡ down_along labels.now (bit bits.entry.words.now) bits.entry.len (drop steps query.now)
        (Some (stand_near (bit bits.entry.words.now) bits.entry.len node kept left)) }
{
    let mut s = stand_near(bits, node, kept, left);
    // no step where `steps` is the query's length or more
    for j in steps..query.len() {
        s = down(labels, bits, s, query[j])?;
    }
    Some(s)
}

// From node 1 along a query: whole words first. Where these reach the query's end, the node's zero is not looked for.
fn reach_end(labels: &[u16], bits: Sequence, query: &[u8]) -> Option<Ended>
    ensures { ended_at (bit bits.entry.words.now) bits.entry.len result
        ≡ reached_at (bit bits.entry.words.now) bits.entry.len
        (walked labels.now (bit bits.entry.words.now) bits.entry.len query.now) }
{
    let Headway {
        node,
        steps,
        kept,
        left,
    } = go_far(labels, bits, query)?;
    if query.len() <= steps {
        return Some(Ended::Near { node, kept, left });
    }
    let s = go_on(labels, bits, query, node, kept, left, steps)?;
    Some(Ended::At(s))
}

// The node at the end of a query, walked from node 1.
pub fn end_of(labels: &[u16], bits: Sequence, query: &[u8]) -> Option<usize>
    ensures { result
        ≡ walked labels.now (bit bits.entry.words.now) bits.entry.len query.now }
{
    match reach_end(labels, bits, query)? {
        Ended::Near { node, .. } => Some(node),
        Ended::At(s) => Some(s.node),
    }
}

// The stand at the end of a query, walked from node 1.
pub fn walk(labels: &[u16], bits: Sequence, query: &[u8]) -> Option<Stand>
    ensures { result
        ≡ reached_at (bit bits.entry.words.now) bits.entry.len
        (walked labels.now (bit bits.entry.words.now) bits.entry.len query.now) }
{
    match reach_end(labels, bits, query)? {
        // with no step left `go_on` looks for the zero alone; called from here too it is not compiled into `reach_end`,
        // which is the shorter for it
        Ended::Near { node, kept, left } => go_on(
            labels,
            bits,
            query,
            node,
            kept,
            left,
            query.len(),
        ),
        Ended::At(s) => Some(s),
    }
}
