// Reading a place: the image and the number are tested, and then the path of the node is read.
ghost use Rattle.std.specs.Prelude.{◌≡◌};
ghost use Rattle.image.specs.Meaning.{lent_image};
ghost use Rattle.climbs.specs.Spelling.{said_spelled};
ghost use Rattle.places.specs.Places.{said_resumed, said_valued, said_measured, resume_says, value_says};
ghost use Rattle.places.specs.Places.{prefix_len_says, prefix_says, prefix_out};

use crate::answers::Place;
use crate::checks::check_place;
use climbs::perches::depth;
use climbs::spelling::spell;
use keymap::Refusal;
use louds::Sequence;
use walks::entries::value_at;

// The place at a node's number.
pub fn resume(labels: &[u16], values: &[u32], words: &[u64], node: u32) -> Result<Place, Refusal>
    ensures answer { said_resumed result ≡ resume_says (lent_image labels values words) node }
{
    check_place(labels, values, words, node)?;
    Ok(Place { node })
}

// The value of a place's path, if it is a key; the root's never is.
pub fn value(
    labels: &[u16],
    values: &[u32],
    words: &[u64],
    place: Place,
) -> Result<Option<u32>, Refusal>
    ensures answer { said_valued result ≡ value_says (lent_image labels values words) place.node }
{
    check_place(labels, values, words, place.node)?;
    Ok(value_at(labels, values, place.node as usize))
}

// How many labels lead to a place.
pub fn prefix_len(
    labels: &[u16],
    values: &[u32],
    words: &[u64],
    place: Place,
) -> Result<usize, Refusal>
    ensures answer { said_measured result ≡ prefix_len_says (lent_image labels values words) place.node }
{
    check_place(labels, values, words, place.node)?;
    let len = 2 * labels.len() + 3;
    let bits = Sequence { words, len };
    Ok(depth(bits, place.node as usize))
}

// Writes a place's path to the front of a buffer, and answers its length; the bytes past it stay.
pub fn prefix(
    labels: &[u16],
    values: &[u32],
    words: &[u64],
    place: Place,
    out: &mut [u8],
) -> Result<usize, Refusal>
    ensures answer { said_spelled result ≡ prefix_says (lent_image labels values words) place.node out.old }
    ensures written { out.new ≡ prefix_out (lent_image labels values words) place.node out.old }
{
    check_place(labels, values, words, place.node)?;
    let node = place.node as usize;
    let len = 2 * labels.len() + 3;
    let bits = Sequence { words, len };
    let length = depth(bits, node);
    if out.len() < length {
        return Err(Refusal::KeyRoom);
    }
    spell(labels, bits, node, length, out);
    Ok(length)
}
