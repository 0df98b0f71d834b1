// Moving a place: the image and the number are tested, and then the move is made on numbers. A refusal leaves the place
// where it is.
ghost use Rattle.std.specs.Prelude.{◌≡◌};
ghost use Rattle.image.specs.Meaning.{lent_image};
ghost use Rattle.places.specs.Incremental.{place_at, said_queried, query_says, QueryPromise, FollowPromise};
ghost use Rattle.places.specs.Incremental.{GotoPromise};

use crate::answers::{Answer, Moved, Place};
use crate::checks::check_place;
use crate::moves::{follow, go_down, step_by};
use keymap::Refusal;

// What `query` answers from a node's number, and where it leaves the place.
pub fn query_at(
    labels: &[u16],
    values: &[u32],
    words: &[u64],
    node: u32,
    label: u8,
) -> Moved<Option<Answer>>
    ensures { QueryPromise (lent_image labels values words) label (place_at node) result.answer (place_at result.node) }
{
    match check_place(labels, values, words, node) {
        Ok(()) => step_by(labels, values, words, node, label),
        Err(refusal) => Moved {
            answer: Err(refusal),
            node,
        },
    }
}

// What `query_until` answers from a node's number, and where it leaves the place.
pub fn query_until_at(
    labels: &[u16],
    values: &[u32],
    words: &[u64],
    node: u32,
    query: &[u8],
) -> Moved<Result<Answer, usize>>
    ensures { FollowPromise (lent_image labels values words) query.now
        (place_at node) result.answer (place_at result.node) }
{
    match check_place(labels, values, words, node) {
        Ok(()) => follow(labels, values, words, node, query),
        Err(refusal) => Moved {
            answer: Err(refusal),
            node,
        },
    }
}

// What `goto_longest_prefix` answers from a node's number, and where it leaves the place.
pub fn goto_at(
    labels: &[u16],
    values: &[u32],
    words: &[u64],
    node: u32,
) -> Moved<Result<usize, usize>>
    ensures { GotoPromise (lent_image labels values words) (place_at node) result.answer (place_at result.node) }
{
    match check_place(labels, values, words, node) {
        Ok(()) => go_down(labels, values, words, node),
        Err(refusal) => Moved {
            answer: Err(refusal),
            node,
        },
    }
}

// What a query by a label would answer. The place is only read.
pub fn peek(
    labels: &[u16],
    values: &[u32],
    words: &[u64],
    place: Place,
    label: u8,
) -> Result<Option<Answer>, Refusal>
    ensures answer { said_queried result ≡ query_says (lent_image labels values words) place.node label }
{
    query_at(labels, values, words, place.node, label).answer
}

// Moves a place to the child with a label, and answers what its path is; with no such child it stays, and the answer is
// None.
pub fn query(
    labels: &[u16],
    values: &[u32],
    words: &[u64],
    place: &mut Place,
    label: u8,
) -> Result<Option<Answer>, Refusal>
    ensures { QueryPromise (lent_image labels values words) label place.old result place.new }
{
    let moved = query_at(labels, values, words, place.node, label);
    place.node = moved.node;
    moved.answer
}

// Moves a place along a query, as far as its labels lead: Ok of what its path is then, or Err of the index of the first
// label that led nowhere, 0 of the empty query.
pub fn query_until(
    labels: &[u16],
    values: &[u32],
    words: &[u64],
    place: &mut Place,
    query: &[u8],
) -> Result<Result<Answer, usize>, Refusal>
    ensures { FollowPromise (lent_image labels values words) query.now place.old result place.new }
{
    let moved = query_until_at(labels, values, words, place.node, query);
    place.node = moved.node;
    moved.answer
}

// Moves a place to the longest common prefix of the longer keys that begin with its path, and answers how many labels
// it moved: Ok if it is a key, Err if it is none. Where there are no such keys the place stays, which is Ok of 0.
pub fn goto_longest_prefix(
    labels: &[u16],
    values: &[u32],
    words: &[u64],
    place: &mut Place,
) -> Result<Result<usize, usize>, Refusal>
    ensures { GotoPromise (lent_image labels values words) place.old result place.new }
{
    let moved = goto_at(labels, values, words, place.node);
    place.node = moved.node;
    moved.answer
}
