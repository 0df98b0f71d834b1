// The key that a cursor gave last, after the buffers of `src/iter/search_iter.rs` and `src/iter/postfix_iter.rs`: the
// numbers tell it, and it is spelled on request.
ghost use Rattle.std.specs.Prelude.{◌≡◌};
ghost use Rattle.keymap.specs.Bits.{bit};
ghost use Rattle.image.specs.Meaning.{lent_image};
ghost use Rattle.climbs.specs.Spelling.{said_spelled};
ghost use Rattle.listings.specs.Numbers.{given_len_by};
ghost use Rattle.listings.specs.GivenKey.{key_says, key_out};

use crate::answers::{Cursor, Kind};
use crate::cursors::stands;
use climbs::perches::depth;
use climbs::spelling::spell;
use image::accept;
use keymap::Refusal;
use louds::Sequence;

// How long the key of a node is in a listing, on any bits: in a postfix listing the top's path does not count.
fn given_len(bits: Sequence, kind: Kind, top: usize, node: usize) -> usize
    ensures { result ≡ given_len_by (bit bits.entry.words.now) bits.entry.len kind top node }
{
    let whole = depth(bits, node);
    match kind {
        Kind::Predictive => whole,
        Kind::Postfix => whole.saturating_sub(depth(bits, top)),
    }
}

// Writes the key that a cursor gave last to the front of a buffer, in postfix listings from after the query; the bytes
// past it stay.
pub fn cursor_key(
    labels: &[u16],
    values: &[u32],
    words: &[u64],
    cursor: Cursor,
    out: &mut [u8],
) -> Result<usize, Refusal>
    ensures answer { said_spelled result ≡ key_says (lent_image labels values words) cursor out.old }
    ensures written { out.new ≡ key_out (lent_image labels values words) cursor out.old }
{
    accept(labels, values, words)?;
    let Cursor::Open { kind, top, last } = cursor else {
        return Err(Refusal::BadPlace);
    };
    let len = 2 * labels.len() + 3;
    let bits = Sequence { words, len };
    if last == 0 || !stands(labels, values, bits, kind, top, last) {
        return Err(Refusal::BadPlace);
    }
    let length = given_len(bits, kind, top as usize, last as usize);
    if out.len() < length {
        return Err(Refusal::KeyRoom);
    }
    spell(labels, bits, last as usize, length, out);
    Ok(length)
}
