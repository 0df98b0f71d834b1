// What the keys that begin with a query have in common: `longest_prefix` of `src/map/trie.rs`.
ghost use Rattle.std.specs.Prelude.{◌≡◌};
ghost use Rattle.image.specs.Meaning.{lent_image};
ghost use Rattle.searches.specs.Answers.{said_longest};
ghost use Rattle.searches.specs.Prefix.{longest_says, longest_out};

use climbs::spelling::spell;
use descents::walk;
use image::accept;
use keymap::Refusal;
use louds::Sequence;
use walks::glide::glide;

// The longest common prefix of all keys that begin with a query, its own among them, written to the front of a buffer.
// The buffer is compared with its length. Where no key begins with the query, or they have nothing in common, nothing
// is written.
pub fn longest_prefix(
    labels: &[u16],
    values: &[u32],
    words: &[u64],
    query: &[u8],
    out: &mut [u8],
) -> Result<Option<usize>, Refusal>
    ensures answer { said_longest result ≡ longest_says (lent_image labels values words) query.now out.old }
    ensures written { out.new ≡ longest_out (lent_image labels values words) query.now out.old }
{
    accept(labels, values, words)?;
    let len = 2 * labels.len() + 3;
    let bits = Sequence { words, len };
    let Some(s) = walk(labels, bits, query) else {
        return Ok(None);
    };
    let g = glide(labels, values, bits, s);
    let length = query.len() + g.steps;
    if length == 0 {
        return Ok(None);
    }
    if out.len() < length {
        return Err(Refusal::KeyRoom);
    }
    let end = g.stand;
    spell(labels, bits, end.node, length, out);
    Ok(Some(length))
}
