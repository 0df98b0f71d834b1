// Going from node to node in byte order of their paths, below a top: to the first child, to the next sibling, or up to
// the parent.
// `src/iter/postfix_iter.rs` keeps a stack of siblings; here the numbers tell where to go on. `last` is the number of
// the last node, n+1.
// A perch carries the place of its node's one. A parent's one lies before it and a child's behind it, so a climb goes
// over the bits once, and so does a descent;
// only `perch_at`, with which a walk begins, looks from bit 0 on.
ghost use Rattle.std.specs.Prelude.{◌≡◌};
ghost use Rattle.keymap.specs.Bits.{bit};
ghost use Rattle.climbs.specs.Order.{one_behind, next_by, given_of};
ghost use Rattle.climbs.specs.Moves.{leads, first_from, beside_from, climb_from, advance_from};

use crate::perches::{Perch, parent_of, perch_at};
use louds::{Sequence, bit_at};
use walks::entries::{KeyNode, counts_to, value_at};

// Whether a one stands right behind a place, inside the bits.
#[tactic(auto, unfolding(crate::specs::Order::one_behind))]
fn one_behind(bits: Sequence, place: usize) -> bool
    ensures { result ≡ one_behind (bit bits.entry.words.now) bits.entry.len place }
{
    place < bits.len && place + 1 < bits.len && bit_at(bits.words, place + 1) == 1
}

// Whether a node whose one is at a place may have a child that counts: fewer zeros than its number stand before its
// one.
#[tactic(auto, unfolding(crate::specs::Moves::leads))]
fn leads_down(len: usize, node: usize, one: usize) -> bool
    ensures { result ≡ leads len node one }
{
    // one + 1 - node zeros stand before the one
    one < len && node != 0 && node <= one + 1 && one + 1 - node < node
}

// The first child of a node. Its one stands right behind the node's zero, which lies ahead of the node's one.
#[tactic(auto, unfolding(crate::specs::Moves::first_from, crate::specs::Moves::leads, crate::specs::Order::one_behind))]
fn first_child(bits: Sequence, last: usize, at: Perch) -> Option<Perch>
    ensures { result ≡ first_from (bit bits.entry.words.now) bits.entry.len last at }
{
    if !leads_down(bits.len, at.node, at.one) {
        return None;
    }
    let before = at.one + 1 - at.node;
    let zero = bits.zero_from(at.one, at.node - before)?;
    if !one_behind(bits, zero) {
        return None;
    }
    let child = zero + 2 - at.node;
    if !counts_to(last, at.node, child) {
        return None;
    }
    Some(Perch {
        node: child,
        one: zero + 1,
    })
}

// The next sibling of a node. Its one stands right behind the node's own.
#[tactic(auto, unfolding(crate::specs::Moves::beside_from, crate::specs::Order::one_behind))]
fn beside(bits: Sequence, last: usize, at: Perch) -> Option<Perch>
    ensures { result ≡ beside_from (bit bits.entry.words.now) bits.entry.len last at }
{
    if at.node < last && one_behind(bits, at.one) {
        Some(Perch {
            node: at.node + 1,
            one: at.one + 1,
        })
    } else {
        None
    }
}

// The next node behind a node that has no child: the next sibling of the nearest of the node and its ancestors that has
// one. At the top the climb ends.
fn climb(bits: Sequence, last: usize, top: usize, from: Perch) -> Option<Perch>
    ensures { result ≡ climb_from (bit bits.entry.words.now) bits.entry.len last top from }
{
    let mut at = from;
    while at.node != top {
        if let Some(next) = beside(bits, last, at) {
            return Some(next);
        }
        at = parent_of(bits, at)?;
    }
    None
}

// The next node in byte order below a top.
fn advance(bits: Sequence, last: usize, top: usize, at: Perch) -> Option<Perch>
    ensures { result ≡ advance_from (bit bits.entry.words.now) bits.entry.len last top at }
{
    // as `or_else` with a closure it was not proved: a closure that takes a struct of slices loses its callee's clause
    match first_child(bits, last, at) {
        None => climb(bits, last, top, at),
        child => child,
    }
}

// The next node below a top that has a value: on an image that some map has, the least key above the node's path, of
// those that begin with the top's.
// There are n+1 nodes, so after as many steps nothing is left.
pub fn next_valued(
    labels: &[u16],
    values: &[u32],
    bits: Sequence,
    top: usize,
    node: usize,
) -> Option<KeyNode>
    ensures { result
        ≡ given_of (next_by labels.now values.now (bit bits.entry.words.now) bits.entry.len top node) }
{
    let last = labels.len() + 1;
    let mut at = perch_at(bits, node);
    for _ in 0..last {
        at = advance(bits, last, top, at)?;
        if let Some(value) = value_at(labels, values, at.node) {
            return Some(KeyNode {
                node: at.node,
                value,
            });
        }
    }
    None
}
