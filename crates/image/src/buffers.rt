// How long the buffers of an image are.
ghost use Rattle.std.specs.Prelude.{◌≡◌};
ghost use Rattle.keymap.specs.Bits.{words_for};
ghost use Rattle.keymap.specs.Image.{bits_for};
ghost use Rattle.image.specs.Build.{buffers_fit};

use louds::WORD_BITS;

// How many words the bits of n nodes besides the root take.
pub fn words_for(n: u32) -> usize
    ensures { result ≡ words_for (bits_for n) }
{
    (2 * (n as usize) + 3 + (WORD_BITS - 1)) / WORD_BITS
}

// No buffer of these lengths is shorter than n nodes besides the root need.
#[tactic(auto, using(std::proofs::lemmas::Bool::Decides::nat_tests), unfolding(crate::specs::Build::buffers_fit))]
pub fn buffers_fit(n: u32, labels: usize, values: usize, words: usize, scratch: usize) -> bool
    ensures { result ≡ buffers_fit n labels values words scratch }
{
    let nodes = n as usize;
    nodes <= labels && nodes <= values && words_for(n) <= words && nodes <= scratch
}
