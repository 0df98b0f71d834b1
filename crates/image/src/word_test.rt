// The bits of an image, word by word. Node m is the m-th one, and its parent is the count of zeros before it. A one
// right after a one is the next sibling of the node before, and a zero right after a zero closes a node without child.
// Most places of a word are neither, and are passed at once.
ghost use Rattle.std.specs.Prelude.{◌≡◌, ◌+◌, ◌*◌, ◌≤◌, ◌<◌, length};
ghost use Rattle.keymap.specs.Limits.{word_bits, most_records};
ghost use Rattle.louds.specs.Digits.{above};
ghost use Rattle.image.specs.AcceptTest.{labels_rise};
ghost use Rattle.image.specs.WordTest.{all_below, parent_at, sibling_at, leaf_at, word_fits, word_at, SiblingsInside};
ghost use Rattle.image.specs.WordTest.{LeavesInside, WordInside, CountedWords};

use crate::entries::MARK;
use louds::{WORD_BITS, lowest_one, ones_in};

// At most as many zeros as ones stand before each one of the word. Where the ones before the word are no fewer than the
// zeros up to its end, that holds of all.
fn parents_fit(x: u64, at: usize, before: usize) -> bool
    requires { at + before ≤ 4 * most_records }
    ensures { result ≡ all_below (parent_at x at before) word_bits }
{
    if at + WORD_BITS <= 2 * before + ones_in(x) {
        return true;
    }
    // the lowest one is taken off until none is left: a `for` over the 64 places would look at the zeros too
    let mut rest = x;
    let mut m = before;
    while rest != 0 {
        if 2 * m < at + lowest_one(rest) {
            return false;
        }
        rest = rest & (rest - 1);
        m += 1;
    }
    true
}

// The labels of the entries from e to e + count, without their marks, rise.
fn labels_rise(labels: &[u16], e: usize, count: usize) -> bool
    requires { e + count < length labels.now }
    ensures { result ≡ all_below (λ j. labels_rise labels.now (e + j)) count }
{
    for j in 0..count {
        let i = e + j;
        if labels[i + 1] % MARK <= labels[i] % MARK {
            return false;
        }
    }
    true
}

// The word without its s lowest bits.
fn without_low(y: u64, s: usize) -> u64
    ensures { result ≡ above y s }
{
    if s < WORD_BITS { y >> s << s } else { 0 }
}

// Siblings by their runs: the ones right after a one.
fn siblings_fit(labels: &[u16], x: u64, prev: u64, before: usize) -> bool
    requires { SiblingsInside (length labels.now) x prev before }
    ensures { result ≡ all_below (sibling_at labels.now x prev before) word_bits }
{
    // a run at a time is taken off until none is left
    let mut y = x & prev;
    while y != 0 {
        let t = lowest_one(y);
        let run = lowest_one(!(y >> t));
        let m = before + ones_in(x & ((1u64 << t) - 1));
        if !labels_rise(labels, m - 2, run) {
            return false;
        }
        y = without_low(y, t + run);
    }
    true
}

// The nodes that the zeros of a word close: those whose zero comes right after a zero are the root or have a value.
fn leaves_fit(labels: &[u16], zeros: u64, lone: u64, before: usize) -> bool
    requires { LeavesInside (length labels.now) zeros before }
    ensures { result ≡ all_below (leaf_at labels.now zeros lone before) word_bits }
{
    if zeros & lone == 0 {
        return true;
    }
    let mut rest = zeros;
    let mut m = before;
    // the first zero closes no node, the second the root; `m` goes on in the loop below, which a `for` would not let it
    while m < 2 {
        if rest == 0 {
            return true;
        }
        rest = rest & (rest - 1);
        m += 1;
    }
    // all others are looked at, so that no branch is taken on which of them are lone; one is taken off at a time, as in
    // `parents_fit`
    let mut bad: u64 = 0;
    while rest != 0 {
        let next = rest & (rest - 1);
        if labels[m - 2] < MARK {
            bad = bad | (rest ^ next);
        }
        rest = next;
        m += 1;
    }
    bad & lone == 0
}

// A word behind `at` bits with `before` ones among them, the last word of them `last`; `left` bits of the sequence are
// left.
fn word_fits(labels: &[u16], x: u64, last: u64, at: usize, before: usize, left: usize) -> bool
    requires { WordInside (length labels.now) x last at before left }
    ensures { result ≡ word_fits labels.now x last at before left }
{
    if !parents_fit(x, at, before) {
        return false;
    }
    let prev = (x << 1) | (last >> 63);
    if !siblings_fit(labels, x, prev, before) {
        return false;
    }
    let mut zeros = !x;
    if left < WORD_BITS {
        zeros = zeros & ((1u64 << left) - 1);
    }
    leaves_fit(labels, zeros, !prev, at - before)
}

// Every word fits.
pub fn words_fit(labels: &[u16], words: &[u64]) -> bool
    requires { CountedWords labels.now words.now }
    ensures { result ≡ all_below (word_at labels.now words.now) (length words.now) }
{
    let len = 2 * labels.len() + 3;
    let mut before = 0;
    let mut last = 0;
    for (w, &x) in words.iter().enumerate() {
        let at = w * WORD_BITS;
        if !word_fits(labels, x, last, at, before, len - at) {
            return false;
        }
        before += ones_in(x);
        last = x;
    }
    true
}
