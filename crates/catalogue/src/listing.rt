// The listing of a pool's map, put into a buffer.
ghost use Rattle.std.specs.Prelude.{◌≡◌, true, ◌≤◌, length};
ghost use Rattle.keymap.specs.Buffers.{over};
ghost use Rattle.keymap.specs.Decode.{image_map};
ghost use Rattle.records.specs.Meaning.{pool_map};
ghost use Rattle.pool.specs.Answers.{accepted};
ghost use Rattle.image.specs.Build.{build_says, build_labels, build_values, build_words, build_scratch, of_lent};
ghost use Rattle.image.specs.Meaning.{image_in, lent_image, MapImage};
ghost use Rattle.lines.specs.Writing.{map_text};

use crate::putting::put_value;
use climbs::order::next_valued;
use climbs::perches::depth;
use climbs::spelling::spell;
use listings::answers::Cursor;
use listings::predictive_search;
use louds::Sequence;

// Builds the image of a pool's map and puts its listing at the start of `out`; answers the listing's length.
pub fn list_pool(
    pool: &[u32],
    labels: &mut [u16],
    values: &mut [u32],
    words: &mut [u64],
    scratch: &mut [u32],
    out: &mut [u8],
) -> usize
    requires granted { accepted (build_says pool.now labels.old values.old words.old scratch.old) ≡ true }
    requires room { length (map_text (pool_map pool.now)) ≤ length out.old }
    ensures answer { result ≡ length (map_text (pool_map pool.now)) }
    ensures out { out.new ≡ over (map_text (pool_map pool.now)) out.old }
    ensures labels { labels.new ≡ of_lent (build_labels pool.now) labels values words scratch }
    ensures values { values.new ≡ of_lent (build_values pool.now) labels values words scratch }
    ensures words { words.new ≡ of_lent (build_words pool.now) labels values words scratch }
    ensures scratch { scratch.new ≡ of_lent (build_scratch pool.now) labels values words scratch }
{
    let Ok(n) = image::build(pool, labels, values, words, scratch) else {
        return 0;
    };
    let nodes = n as usize;
    list_image(
        &labels[..nodes],
        &values[..nodes],
        &words[..image::words_for(n)],
        out,
    )
}

// Puts the listing of an image's map at the start of a buffer that holds it, each key straight behind the line before;
// answers its length. The start of the listing tests the image. What is gone over then is still that image, so the
// calls below a cursor's take the place of its steps and keys: each of these would test it again, which took the
// program up to 1.8 of the time.
fn list_image(labels: &[u16], values: &[u32], words: &[u64], out: &mut [u8]) -> usize
    requires of_map { MapImage (image_in labels values words) }
    requires room { length (map_text (image_map (image_in labels values words))) ≤ length out.old }
    ensures answer { result ≡ length (map_text (image_map (lent_image labels values words))) }
    ensures out { out.new ≡ over (map_text (image_map (lent_image labels values words))) out.old }
{
    // no start is refused on a map's image, and that of a map without entries is finished
    let Ok(start) = predictive_search(labels, values, words, b"") else {
        return 0;
    };
    let Cursor::Open { kind: _, top, last } = start else {
        return 0;
    };
    let len = 2 * labels.len() + 3;
    let bits = Sequence { words, len };
    let root = top as usize;
    let mut node = last as usize;
    let mut at = 0;
    while let Some(key) = next_valued(labels, values, bits, root, node.max(root)) {
        let length = depth(bits, key.node);
        spell(labels, bits, key.node, length, &mut out[at..]);
        at = put_value(key.value, at + length, out);
        node = key.node;
    }
    at
}
