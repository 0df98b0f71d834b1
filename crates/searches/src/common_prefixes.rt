// The keys that are prefixes of a query, after `src/iter/prefix_iter.rs`: one call for each, with the length that was
// seen already.
// A seen length at or past the query's end gives no match, and nothing is added to it.
ghost use Rattle.std.specs.Prelude.{◌≡◌, Some};
ghost use Rattle.image.specs.Meaning.{lent_image};
ghost use Rattle.walks.specs.Rule.{value_of_node};
ghost use Rattle.searches.specs.Answers.{said_common};
ghost use Rattle.searches.specs.CommonPrefixes.{unless_seen, shortest_from, match_of, common_says};
ghost use Rattle.searches.specs.CommonPrefixes.{common_part};

use crate::answers::Common;
use image::accept;
use keymap::Refusal;
use louds::Sequence;
use walks::entries::value_at;
use walks::moves::down;
use walks::stands::stand_at;

// The value of a node at a depth, unless that much was seen.
fn unseen_value(
    labels: &[u16],
    values: &[u32],
    node: usize,
    depth: usize,
    seen: usize,
) -> Option<u32>
    ensures { result ≡ unless_seen seen depth (value_of_node labels.now values.now node) }
{
    if depth <= seen {
        return None;
    }
    value_at(labels, values, node)
}

// The shortest key, by a walk down the query that stops at the first value past what was seen: the image is not tested.
fn shortest(
    labels: &[u16],
    values: &[u32],
    words: &[u64],
    query: &[u8],
    seen: usize,
) -> Option<Common>
    ensures { result
        ≡ match_of (shortest_from (lent_image labels values words) seen query.now 0 (Some 1)) }
{
    let len = 2 * labels.len() + 3;
    let bits = Sequence { words, len };
    let mut s = stand_at(bits, 1);
    for depth in 0..query.len() {
        s = down(labels, bits, s, query[depth])?;
        let length = depth + 1;
        if let Some(value) = unseen_value(labels, values, s.node, length, seen) {
            return Some(Common { length, value });
        }
    }
    None
}

// The shortest key that is a prefix of the query and longer than what was seen: its length and value.
pub fn common_prefix(
    labels: &[u16],
    values: &[u32],
    words: &[u64],
    query: &[u8],
    seen: usize,
) -> Result<Option<Common>, Refusal>
    ensures answer { said_common result ≡ common_says (lent_image labels values words) query.now seen }
{
    accept(labels, values, words)?;
    Ok(shortest(labels, values, words, query, seen))
}

// That key as the leading part of the query itself, empty where `common_prefix` refuses or has no match.
pub fn common_prefix_part<'a>(
    labels: &[u16],
    values: &[u32],
    words: &[u64],
    query: &'a [u8],
    seen: usize,
) -> &'a [u8]
    ensures part { result.now ≡ common_part (lent_image labels values words) query.now seen }
    ensures leading { result.ref_ptr ≡ query.entry.ref_ptr }
{
    match common_prefix(labels, values, words, query, seen) {
        Ok(Some(common)) => &query[..common.length],
        Ok(None) => &query[..0],
        Err(_) => &query[..0],
    }
}
