// Ranks: how many ones or zeros stand before a place. Ones are counted by whole words, and by part of the last; the
// ones of a single word are also counted up to the end of each of its bytes.
ghost use Rattle.std.specs.Prelude.{◌≡◌, ◌+◌, ◌*◌, ◌/◌, ◌%◌, ◌^◌, count_ones};
ghost use Rattle.keymap.specs.Bits.{bit, sum_below};
ghost use Rattle.louds.specs.Rank.{ones_before, zeros_before};

use crate::bits::{WORD_BITS, word_at};

// How many ones a word has. At most 64, so the count fits.
pub fn ones_in(word: u64) -> usize
    ensures { result ≡ count_ones word }
{
    u64::count_ones(word) as usize
}

// How many ones each byte of a word has, in that byte.
fn ones_of_bytes(word: u64) -> u64
    ensures { result ≡ sum_below (λ i. count_ones (word / 2 ^ (8 * i) % 2 ^ 8) * 2 ^ (8 * i)) 8 }
{
    // first of every two bits, then of four, then of eight: an upper bit weighs 2, and two counts up to 4 fit in four
    // bits
    let twos = word - ((word >> 1) & 0x5555555555555555u64);
    let fours = (twos & 0x3333333333333333u64) + ((twos >> 2) & 0x3333333333333333u64);
    (fours + (fours >> 4)) & 0x0f0f0f0f0f0f0f0fu64
}

// How many ones a word has up to the end of each of its bytes, in that byte.
pub fn ones_by_byte(word: u64) -> u64
    ensures { result ≡ sum_below (λ i. count_ones (word % 2 ^ (8 * (i + 1))) * 2 ^ (8 * i)) 8 }
{
    // of a byte and the one below it, then of four bytes, then of eight
    let one = ones_of_bytes(word);
    let two = one + (one << 8);
    let four = two + (two << 16);
    four + (four << 32)
}

// How many of the first i bits are ones.
pub fn ones_before(words: &[u64], i: usize) -> usize
    ensures { result ≡ ones_before (bit words.now) i }
{
    let whole = i / WORD_BITS;
    let mut total: usize = 0;
    for &word in &words[..whole.min(words.len())] {
        total += ones_in(word);
    }
    let mask = (1u64 << (i % WORD_BITS)) - 1;
    total + ones_in(word_at(words, whole) & mask)
}

// How many of the first i bits are zeros, those beyond the last word among them.
pub fn zeros_before(words: &[u64], i: usize) -> usize
    ensures { result ≡ zeros_before (bit words.now) i }
{
    i - ones_before(words, i)
}
