// The image of a map in lent slices: label entries, values, and the words of the level-order bits.
#![tactic(auto)]

mod acceptance;
mod breadth_first;
mod buffers;
mod entries;
mod word_test;

ghost use Rattle.std.specs.Prelude.{◌≡◌, ◌↔◌, [], ◌∷◌};
ghost use Rattle.image.specs.Accept.{OfMap};
ghost use Rattle.image.specs.AcceptTest.{image_test};
ghost use Rattle.image.specs.Meaning.{lent_image};
ghost use Rattle.image.specs.AcceptAnswer.{accepted_if, said_checked, accept_says};
ghost use Rattle.image.specs.Build.{said_built, build_says, build_labels, build_values, build_words, build_scratch};
ghost use Rattle.image.specs.Build.{of_lent};

use crate::breadth_first::write_levels;
use crate::buffers::buffers_fit;
use crate::entries::write_entries;
pub use acceptance::{is_image, lengths_fit};
pub use buffers::words_for;
pub use entries::MARK;
use keymap::Refusal;
use pool::soundness::check_sound;
use records::words::used_count;

// Refuses slices that are no map's image. It only reads.
pub fn accept(labels: &[u16], values: &[u32], words: &[u64]) -> Result<(), Refusal>
    ensures tested { result ≡ accepted_if (image_test (lent_image labels values words)) }
    ensures answer { said_checked result ≡ accept_says (lent_image labels values words) }
    ensures of_map { (said_checked result ≡ 0 ∷ []) ↔ OfMap (lent_image labels values words) }
{
    if !is_image(labels, values, words) {
        return Err(Refusal::NotAnImage);
    }
    Ok(())
}

// Writes the image of the pool's map, and the level order of its records to the scratch slice. The pool is only read,
// longer buffers keep their tails. A refusal writes nothing.
pub fn build(
    pool: &[u32],
    labels: &mut [u16],
    values: &mut [u32],
    words: &mut [u64],
    scratch: &mut [u32],
) -> Result<u32, Refusal>
    ensures answer { said_built result ≡ of_lent (build_says pool.now) labels values words scratch }
    ensures labels { labels.new ≡ of_lent (build_labels pool.now) labels values words scratch }
    ensures values { values.new ≡ of_lent (build_values pool.now) labels values words scratch }
    ensures words { words.new ≡ of_lent (build_words pool.now) labels values words scratch }
    ensures scratch { scratch.new ≡ of_lent (build_scratch pool.now) labels values words scratch }
{
    check_sound(pool)?;
    let n = used_count(pool);
    if !buffers_fit(n, labels.len(), values.len(), words.len(), scratch.len()) {
        return Err(Refusal::OutTooSmall);
    }
    write_levels(pool, n, words, scratch);
    write_entries(pool, scratch, n, labels, values);
    Ok(n)
}
