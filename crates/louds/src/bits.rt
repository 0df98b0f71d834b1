// Single bits: bit i has weight 2^(i mod 64) in word i/64.
ghost use Rattle.std.specs.Prelude.{◌≡◌, slice_index};
ghost use Rattle.keymap.specs.Bits.{bit};
ghost use Rattle.louds.specs.Put.{with_one};

pub const WORD_BITS: usize = 64;

// The first `len` bits of some words. Any length goes with any words.
#[derive(Clone, Copy)]
pub struct Sequence<'a> {
    pub words: &'a [u64],
    pub len: usize,
}

// Word w, and 0 beyond the last.
pub fn word_at(words: &[u64], w: usize) -> u64
    ensures { result ≡ slice_index words.now w }
{
    words.get(w).copied().unwrap_or(0)
}

// Bit i, and 0 beyond the last word.
pub fn bit_at(words: &[u64], i: usize) -> u64
    ensures { result ≡ bit words.now i }
{
    let word = word_at(words, i / WORD_BITS);
    (word >> (i % WORD_BITS)) % 2
}

// Bit p becomes a one and no other bit changes; beyond the last word nothing is written.
pub fn put_one(words: &mut [u64], p: usize)
    ensures { words.new ≡ with_one words.old p }
{
    let w = p / WORD_BITS;
    if w < words.len() {
        words[w] |= 1u64 << (p % WORD_BITS);
    }
}
