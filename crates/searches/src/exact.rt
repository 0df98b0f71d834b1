// The value of a key, after `src/map/trie.rs`: `exact_match`; `set_value`, which is its `exact_match_mut`; and
// `is_prefix`.
// The image is tested before anything else, so a refused image answers NotAnImage for the empty query too.
ghost use Rattle.std.specs.Prelude.{◌≡◌};
ghost use Rattle.image.specs.Meaning.{as_image, lent_image};
ghost use Rattle.walks.specs.Rule.{found_by};
ghost use Rattle.searches.specs.Answers.{said_looked, said_prefixed};
ghost use Rattle.searches.specs.Exact.{keyed_in, goes_on, exact_says, set_values, is_prefix_says};

use descents::{end_of, walk};
use image::accept;
use keymap::Refusal;
use louds::Sequence;
use walks::entries::{KeyNode, value_at};
use walks::stands::kids;

// The node and the value of a key, by R-7's rule: the image is not tested.
#[tactic(auto, unfolding(crate::specs::Exact::keyed_in))]
pub fn find(labels: &[u16], values: &[u32], words: &[u64], query: &[u8]) -> Option<KeyNode>
    ensures { result ≡ keyed_in (lent_image labels values words) query.now }
{
    let len = 2 * labels.len() + 3;
    let bits = Sequence { words, len };
    let node = end_of(labels, bits, query)?;
    let value = value_at(labels, values, node)?;
    Some(KeyNode { node, value })
}

// Its value alone.
pub fn value_of(labels: &[u16], values: &[u32], words: &[u64], query: &[u8]) -> Option<u32>
    ensures { result ≡ found_by (lent_image labels values words) query.now }
{
    let key = find(labels, values, words, query)?;
    Some(key.value)
}

// The value of a key. The empty query is no key.
pub fn exact_match(
    labels: &[u16],
    values: &[u32],
    words: &[u64],
    query: &[u8],
) -> Result<Option<u32>, Refusal>
    ensures answer { said_looked result ≡ exact_says (lent_image labels values words) query.now }
{
    accept(labels, values, words)?; // for the empty query too
    Ok(value_of(labels, values, words, query))
}

// Sets the value of a key that is there, and answers the one that it had. Nothing else is written.
pub fn set_value(
    labels: &[u16],
    values: &mut [u32],
    words: &[u64],
    query: &[u8],
    value: u32,
) -> Result<Option<u32>, Refusal>
    ensures answer { said_looked result ≡ exact_says (as_image labels.now values.old words.now) query.now }
    ensures written { values.new
        ≡ set_values (as_image labels.now values.old words.now) query.now value }
{
    accept(labels, values, words)?; // before anything is written
    let Some(key) = find(labels, values, words, query) else {
        return Ok(None);
    };
    values[key.node - 2] = value;
    Ok(Some(key.value))
}

// Whether the node at a query has children.
#[tactic(auto, unfolding(crate::specs::Exact::goes_on))]
fn goes_on(labels: &[u16], words: &[u64], query: &[u8]) -> bool
    ensures { result ≡ goes_on labels.now words.now query.now }
{
    let len = 2 * labels.len() + 3;
    let bits = Sequence { words, len };
    let Some(s) = walk(labels, bits, query) else {
        return false;
    };
    let k = kids(bits, s);
    0 < k.count
}

// Whether some key begins with a query and is longer.
pub fn is_prefix(
    labels: &[u16],
    values: &[u32],
    words: &[u64],
    query: &[u8],
) -> Result<bool, Refusal>
    ensures answer { said_prefixed result ≡ is_prefix_says (lent_image labels values words) query.now }
{
    accept(labels, values, words)?; // and for a query that leads nowhere
    Ok(goes_on(labels, words, query))
}
