// Moving from a node by labels, on numbers, total: each answers for any slices and any number, and none refuses. The
// calls on a place test both first.
ghost use Rattle.std.specs.Prelude.{◌≡◌};
ghost use Rattle.image.specs.Meaning.{lent_image};
ghost use Rattle.places.specs.Moves.{place_number, answer_by, query_by, follow_by, goto_by};

use crate::answers::{Answer, Moved};
use louds::{Children, Sequence};
use walks::entries::value_at;
use walks::glide::glide;
use walks::moves::down;
use walks::stands::{Stand, kid_at, kids, stand_at};

// A node's number as a place has it; of a larger one than a place can have 0, which is no node's.
fn place_number(node: usize) -> u32
    ensures { result ≡ place_number node }
{
    u32::try_from(node).unwrap_or(0)
}

// What a node but the root is. One without child is a key: in the image of a map it has a value.
fn answer_at(labels: &[u16], values: &[u32], words: &[u64], s: Stand) -> Answer
    ensures { result ≡ answer_by (lent_image labels values words) s }
{
    let len = 2 * labels.len() + 3;
    let bits = Sequence { words, len };
    let k = kids(bits, s);
    if k.count == 0 {
        return Answer::Match;
    }
    match value_at(labels, values, s.node) {
        Some(_) => Answer::PrefixAndMatch,
        None => Answer::Prefix,
    }
}

// To the child with a label, if there is one.
pub fn step_by(
    labels: &[u16],
    values: &[u32],
    words: &[u64],
    node: u32,
    label: u8,
) -> Moved<Option<Answer>>
    ensures { result ≡ query_by (lent_image labels values words) node label }
{
    let len = 2 * labels.len() + 3;
    let bits = Sequence { words, len };
    let s = stand_at(bits, node as usize);
    let Some(t) = down(labels, bits, s, label) else {
        return Moved {
            answer: Ok(None),
            node,
        };
    };
    Moved {
        answer: Ok(Some(answer_at(labels, values, words, t))),
        node: place_number(t.node),
    }
}

// Along a query, as far as there are nodes. No label of the empty query leads on.
pub fn follow(
    labels: &[u16],
    values: &[u32],
    words: &[u64],
    node: u32,
    query: &[u8],
) -> Moved<Result<Answer, usize>>
    ensures { result ≡ follow_by (lent_image labels values words) node query.now }
{
    let len = 2 * labels.len() + 3;
    let bits = Sequence { words, len };
    let mut s = stand_at(bits, node as usize);
    for j in 0..query.len() {
        let Some(t) = down(labels, bits, s, query[j]) else {
            return Moved {
                answer: Ok(Err(j)),
                node: place_number(s.node),
            };
        };
        s = t;
    }
    let answer = if query.is_empty() {
        Err(0)
    } else {
        Ok(answer_at(labels, values, words, s))
    };
    Moved {
        answer: Ok(answer),
        node: place_number(s.node),
    }
}

// To where the longer keys that begin with a node's path part, or one of them ends. A value at the node itself does not
// hold it.
pub fn go_down(
    labels: &[u16],
    values: &[u32],
    words: &[u64],
    node: u32,
) -> Moved<Result<usize, usize>>
    ensures { result ≡ goto_by (lent_image labels values words) node }
{
    let len = 2 * labels.len() + 3;
    let bits = Sequence { words, len };
    let from = node as usize;
    let Some(Children { first, count }) = bits.children(from) else {
        return Moved {
            answer: Ok(Ok(0)),
            node,
        };
    };
    if count == 0 {
        return Moved {
            answer: Ok(Ok(0)),
            node,
        };
    }
    if 1 < count {
        return Moved {
            answer: Ok(Err(0)),
            node,
        };
    }
    // the zero behind an only child has as many zeros before it as the node's number says, and as many ones as the
    // child's
    let c = kid_at(bits, from, from + first, first);
    let g = glide(labels, values, bits, c);
    let distance = g.steps + 1;
    let end = g.stand.node;
    let answer = match value_at(labels, values, end) {
        Some(_) => Ok(distance),
        None => Err(distance),
    };
    Moved {
        answer: Ok(answer),
        node: place_number(end),
    }
}
