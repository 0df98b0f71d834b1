// Listings, after `src/iter/search_iter.rs` and `src/iter/postfix_iter.rs`. A cursor holds numbers alone, so each call
// tests the image, and then that the numbers belong to it. The image is tested before anything else: a refused image
// answers NotAnImage for a finished cursor and for the empty query too.
// The functions that the calls are made of answer for any slices and numbers (specs/Numbers), and read no bit behind
// the sequence.
ghost use Rattle.std.specs.Prelude.{◌≡◌};
ghost use Rattle.keymap.specs.Bits.{bit};
ghost use Rattle.image.specs.Meaning.{lent_image};
ghost use Rattle.climbs.specs.Order.{given_of};
ghost use Rattle.listings.specs.declared.answers.Kind.TheVariants as kinds;
ghost use Rattle.listings.specs.Answers.{said_started, said_stepped};
ghost use Rattle.listings.specs.Cursors.{start_says, step_says};
ghost use Rattle.listings.specs.Numbers.{in_set_by, stands_by, first_given_by, next_given_by, has_keys_by, start_by};

use crate::answers::{Cursor, Kind, Stepped};
use climbs::below::is_below;
use climbs::order::next_valued;
use descents::walk;
use image::accept;
use keymap::Refusal;
use louds::Sequence;
use walks::entries::{KeyNode, is_node, value_at};
use walks::stands::{Stand, kids};

// Whether a node is that of a key of a top's set. A postfix set leaves out the top's own.
#[tactic(auto, unfolding(crate::specs::Numbers::in_set_by))]
fn in_set(
    labels: &[u16],
    values: &[u32],
    bits: Sequence,
    kind: Kind,
    top: usize,
    node: usize,
) -> bool
    ensures { result ≡ in_set_by labels.now values.now (bit bits.entry.words.now) bits.entry.len kind top node }
{
    let left_out = kind == Kind::Postfix && node == top;
    !left_out && value_at(labels, values, node).is_some() && is_below(bits, top, node)
}

// Whether the numbers of an open cursor belong to the image.
#[tactic(auto, unfolding(crate::specs::Numbers::stands_by))]
pub fn stands(
    labels: &[u16],
    values: &[u32],
    bits: Sequence,
    kind: Kind,
    top: u32,
    last: u32,
) -> bool
    ensures { result ≡ stands_by labels.now values.now (bit bits.entry.words.now) bits.entry.len kind top last }
{
    if !is_node(labels, top) {
        return false;
    }
    if last == 0 {
        return true;
    }
    is_node(labels, last) && in_set(labels, values, bits, kind, top as usize, last as usize)
}

// The first key that begins with the top's path: its own, if it has a value.
#[tactic(auto, unfolding(crate::specs::Numbers::first_given_by))]
fn first_given(labels: &[u16], values: &[u32], bits: Sequence, top: usize) -> Option<KeyNode>
    ensures { result ≡ given_of (first_given_by labels.now values.now (bit bits.entry.words.now) bits.entry.len top) }
{
    match value_at(labels, values, top) {
        Some(value) => Some(KeyNode { node: top, value }),
        None => next_valued(labels, values, bits, top, top),
    }
}

// What the next step of an open cursor gives.
#[tactic(auto, unfolding(crate::specs::Numbers::next_given_by))]
fn next_given(
    labels: &[u16],
    values: &[u32],
    bits: Sequence,
    kind: Kind,
    top: usize,
    last: usize,
) -> Option<KeyNode>
    ensures { result
        ≡ given_of (next_given_by labels.now values.now (bit bits.entry.words.now) bits.entry.len kind top last) }
{
    if last != 0 {
        return next_valued(labels, values, bits, top, last);
    }
    match kind {
        Kind::Predictive => first_given(labels, values, bits, top),
        Kind::Postfix => next_valued(labels, values, bits, top, top),
    }
}

// Whether a set has a key. Where there are nodes besides the root, some key begins with each path.
fn has_keys(labels: &[u16], bits: Sequence, kind: Kind, s: Stand) -> bool
    ensures { result ≡ has_keys_by labels.now (bit bits.entry.words.now) bits.entry.len kind s }
{
    match kind {
        Kind::Predictive => 0 < labels.len(),
        Kind::Postfix => {
            let k = kids(bits, s);
            0 < k.count
        }
    }
}

// The cursor that a listing starts with, on any bits. Its numbers have 32 bits.
#[tactic(auto, unfolding(crate::specs::Numbers::start_by))]
fn start(labels: &[u16], bits: Sequence, kind: Kind, query: &[u8]) -> Cursor
    ensures { result ≡ start_by labels.now (bit bits.entry.words.now) bits.entry.len kind query.now }
{
    let Some(s) = walk(labels, bits, query) else {
        return Cursor::finished(kind);
    };
    match u32::try_from(s.node) {
        Ok(top) if has_keys(labels, bits, kind, s) => Cursor::top(kind, top),
        _ => Cursor::finished(kind),
    }
}

// A cursor over a query's set of either kind, finished where that has no key.
fn listing(
    labels: &[u16],
    values: &[u32],
    words: &[u64],
    kind: Kind,
    query: &[u8],
) -> Result<Cursor, Refusal>
    ensures answer { said_started result ≡ start_says kind (lent_image labels values words) query.now }
{
    accept(labels, values, words)?; // for the empty query too
    let len = 2 * labels.len() + 3;
    let bits = Sequence { words, len };
    Ok(start(labels, bits, kind, query))
}

// A cursor over the keys that begin with a query, finished where there are none. Each kind has a call of the name that
// the documents give it.
pub fn predictive_search(
    labels: &[u16],
    values: &[u32],
    words: &[u64],
    query: &[u8],
) -> Result<Cursor, Refusal>
    ensures answer { said_started result ≡ start_says kinds.Predictive (lent_image labels values words) query.now }
{
    listing(labels, values, words, Kind::Predictive, query)
}

// A cursor over the keys that begin with a query and are longer, finished where there are none.
pub fn postfix_search(
    labels: &[u16],
    values: &[u32],
    words: &[u64],
    query: &[u8],
) -> Result<Cursor, Refusal>
    ensures answer { said_started result ≡ start_says kinds.Postfix (lent_image labels values words) query.now }
{
    listing(labels, values, words, Kind::Postfix, query)
}

// The least key of the cursor's set above the one given last, with the cursor to go on with; after the last key, and of
// a finished cursor, the end.
pub fn step(
    labels: &[u16],
    values: &[u32],
    words: &[u64],
    cursor: Cursor,
) -> Result<Stepped, Refusal>
    ensures answer { said_stepped result ≡ step_says (lent_image labels values words) cursor }
{
    accept(labels, values, words)?; // for a finished cursor too
    let Cursor::Open { kind, top, last } = cursor else {
        return Ok(Stepped::End { next: cursor });
    };
    let len = 2 * labels.len() + 3;
    let bits = Sequence { words, len };
    if !stands(labels, values, bits, kind, top, last) {
        return Err(Refusal::BadPlace);
    }
    match next_given(labels, values, bits, kind, top as usize, last as usize) {
        Some(key) => {
            let node = key.node as u32;
            Ok(Stepped::Gave {
                node,
                value: key.value,
                next: Cursor::Open {
                    kind,
                    top,
                    last: node,
                },
            })
        }
        None => Ok(Stepped::End {
            next: Cursor::finished(kind),
        }),
    }
}
