// Selects: where the k-th zero or one of a sequence stands, counted from 1, or going down, the k-th of the bits before
// a place. The 0-th is missing.
// Words are passed by how many zeros or ones they have, and the one that has the k-th is looked into.
ghost use Rattle.std.specs.Prelude.{◌≡◌, ◌+◌, ◌*◌, ◌/◌, ◌<◌, ◌≤◌, min, count_ones, Some, unwrap_or};
ghost use Rattle.std.specs.Int.Count.{count_trailing_zeros};
ghost use Rattle.keymap.specs.Limits.{word_bits};
ghost use Rattle.keymap.specs.Bits.{bit, number};
ghost use Rattle.louds.specs.Digits.{digit};
ghost use Rattle.louds.specs.Taking.{ones_from};
ghost use Rattle.louds.specs.Select.{kth, marks, bit_from, zero_at, zero_from, one_at, one_back};

use crate::bits::{Sequence, WORD_BITS, word_at};
use crate::rank::{ones_by_byte, ones_in};
use std::num::wrapping_add_u64;

// The lowest bit of each byte of a word.
const LOW_BITS: u64 = 0x0101010101010101;

// The highest bit of each byte.
const TOP_BITS: u64 = 0x8080808080808080;

// Up to so many are found by taking ones away from the bottom of a word. Any number would be right; with 4 and with 16
// nearly every call took more instructions.
const FEW: usize = 8;

// Where the lowest one of a word is; 64 if it has none.
pub fn lowest_one(word: u64) -> usize
    ensures { result ≡ count_trailing_zeros word_bits word }
{
    u64::trailing_zeros(word) as usize
}

// Where the j-th one of a word is, counted from 1. The ones below it are taken away.
fn picked(word: u64, j: usize) -> Option<usize>
    ensures { result ≡ kth (digit word) word_bits j }
{
    if j == 0 {
        return None;
    }
    let mut left = j;
    let mut rest = word;
    // it ends with the word's ones: as a `for` up to j a turn took an instruction more
    while rest != 0 {
        if left == 1 {
            return Some(lowest_one(rest));
        }
        rest &= rest - 1;
        left -= 1;
    }
    None
}

// Where the j-th one of a word is that has so many. Beyond a few, its byte is found by the counts of all bytes at once,
// and then looked into.
fn nth_one(word: u64, j: usize) -> usize
    requires { (0 < j) × (j ≤ count_ones word) }
    ensures { kth (digit word) word_bits j ≡ Some result }
{
    if j <= FEW {
        return picked(word, j).unwrap();
    }
    let sums = ones_by_byte(word);
    // a byte keeps its top bit if j ones or more stand up to its end, so the lowest that does has the j-th
    let reached = (sums + TOP_BITS - (j as u64) * LOW_BITS) & TOP_BITS;
    let start = lowest_one(reached) - 7;
    let below = ((sums << 8) >> start) & 255;
    start + picked(word >> start, j - below as usize).unwrap()
}

// What 127 in each byte is more than the complement of 0.
const MOST_LESS: u64 = 0x7f7f7f7f7f7f7f80;

// The ones of a word without those before its j-th, where `sums` are its ones up to the end of each byte. Other sums
// give other ones of it, or none.
pub fn ones_from(word: u64, sums: u64, j: usize) -> u64
    ensures { result ≡ ones_from word sums j }
{
    // in each byte 127 less the ones before the byte, plus j: its top bit is set if those are fewer than j, so the j-th
    // is in the byte before the first without it, or in the last byte
    let fewer = wrapping_add_u64(
        wrapping_add_u64(!(sums << 8), MOST_LESS),
        (j % 256) as u64 * LOW_BITS,
    );
    let start = (lowest_one(!fewer & TOP_BITS) + 56) & 56;
    let over = (fewer >> start) % 128;
    let mut rest = word >> start << start;
    for _ in 0..over {
        if rest == 0 {
            return 0;
        }
        rest &= rest - 1;
    }
    rest
}

// Word w of the marks of the bits that equal v: a one where such a bit stands.
fn marks_in(words: &[u64], v: u64, w: usize) -> u64
    ensures { result ≡ number (λ t. marks (bit words.now) v (w * word_bits + t)) word_bits }
{
    let word = word_at(words, w);
    match v {
        0 => !word,
        1 => word,
        _ => 0,
    }
}

// The k-th bit that equals v, at `from` or beyond, where every bit is 0.
fn among_zeros(len: usize, v: u64, from: usize, k: usize) -> Option<usize>
    ensures { result ≡ bit_from (λ i. 0) len v from k }
{
    if v != 0 || k == 0 || len <= from || len - from < k {
        return None;
    }
    Some(from + (k - 1))
}

impl<'a> Sequence<'a> {
    // The k-th zero at `from` or beyond, if the word of `from` has it.
    fn near_zero(self, from: usize, k: usize) -> Option<usize>
        ensures { result
            ≡ zero_from (bit self.entry.words.now) (min self.entry.len ((from / word_bits + 1) * word_bits)) from k }
    {
        let w = from / WORD_BITS;
        let before = from % WORD_BITS;
        let near = picked(marks_in(self.words, 0, w) >> before << before, k)?;
        let p = w * WORD_BITS + near;
        if p < self.len { Some(p) } else { None }
    }

    // The k-th bit that equals v, at `from` or beyond: whole words are passed by their count, and the one that has it
    // is looked into.
    fn bit_from(self, v: u64, from: usize, k: usize) -> Option<usize>
        ensures { result ≡ bit_from (bit self.entry.words.now) self.entry.len v from k }
    {
        if k == 0 || self.len <= from {
            return None;
        }
        let mut w = from / WORD_BITS;
        if self.words.len() <= w {
            return among_zeros(self.len, v, from, k);
        }
        let before = from % WORD_BITS;
        let mut x = marks_in(self.words, v, w) >> before << before;
        let mut count = ones_in(x);
        let mut left = k;
        // as a `for` over the words a call took two to four instructions in a hundred more where the bit is not far
        while count < left {
            if self.len / WORD_BITS <= w {
                return None;
            }
            left -= count;
            w += 1;
            if self.words.len() <= w {
                return among_zeros(self.len, v, w * WORD_BITS, left);
            }
            x = marks_in(self.words, v, w);
            count = ones_in(x);
        }
        let start = w * WORD_BITS;
        let p = nth_one(x, left);
        if p < self.len - start {
            Some(start + p)
        } else {
            None
        }
    }

    // The k-th zero.
    pub fn zero_at(self, k: usize) -> Option<usize>
        ensures { result ≡ zero_at (bit self.entry.words.now) self.entry.len k }
    {
        self.zero_from(0, k)
    }

    // The k-th zero at `from` or beyond; bits before `from` do not count. Just past the j-th zero it is the zero j + k
    // of the sequence.
    // The next zeros of a walk are near: where few are asked for, the first word is looked into before its bits are
    // counted.
    pub fn zero_from(self, from: usize, k: usize) -> Option<usize>
        ensures { result ≡ zero_from (bit self.entry.words.now) self.entry.len from k }
    {
        if k <= FEW {
            if let Some(p) = self.near_zero(from, k) {
                return Some(p);
            }
        }
        self.bit_from(0, from, k)
    }

    // The m-th one.
    pub fn one_at(self, m: usize) -> Option<usize>
        ensures { result ≡ one_at (bit self.entry.words.now) self.entry.len m }
    {
        self.bit_from(1, 0, m)
    }
}

// The k-th one before `from`, counted down. From the m-th one it is the one m - k of the sequence.
pub fn one_back(words: &[u64], from: usize, k: usize) -> Option<usize>
    ensures { result ≡ one_back (bit words.now) from k }
{
    if k == 0 {
        return None;
    }
    // of the place's own word the bits before it count; beyond the last word there are no ones
    let own = from / WORD_BITS;
    let (end, mut kept) = if own < words.len() {
        (own + 1, (1u64 << (from % WORD_BITS)) - 1)
    } else {
        (words.len(), u64::MAX)
    };
    let mut seen: usize = 0;
    for w in (0..end).rev() {
        let x = words[w] & kept;
        seen += ones_in(x);
        if k <= seen {
            // counted down it is the k-th of those seen
            return Some(w * WORD_BITS + nth_one(x, seen - (k - 1)));
        }
        kept = u64::MAX;
    }
    None
}
