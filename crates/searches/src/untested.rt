// The lookup of 02, R-7: an exact match that does not read the catalogue. Of the image only the lengths are tested, and
// any bits and entries are read by the rule of `walks`;
// on an image that some map has it answers what `exact_match` answers.
ghost use Rattle.std.specs.Prelude.{◌≡◌};
ghost use Rattle.image.specs.Meaning.{lent_image};
ghost use Rattle.searches.specs.Answers.{said_looked};
ghost use Rattle.searches.specs.Untested.{untested_says};

use crate::exact::value_of;
use image::lengths_fit;
use keymap::Refusal;

// The value of a key in the first 2n+3 bits, whatever they are. The empty query is no key.
#[tactic(auto, unfolding(crate::specs::Untested::untested_says))]
pub fn exact_match_untested(
    labels: &[u16],
    values: &[u32],
    words: &[u64],
    query: &[u8],
) -> Result<Option<u32>, Refusal>
    ensures answer { said_looked result ≡ untested_says (lent_image labels values words) query.now }
{
    if !lengths_fit(labels, values, words) {
        return Err(Refusal::NotAnImage);
    }
    Ok(value_of(labels, values, words, query))
}
