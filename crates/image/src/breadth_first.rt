// The nodes in breadth-first order, with a queue that is the scratch slice itself: what has been taken from it stays,
// so that it ends as the level order.
// After `src/internal_data_structure/naive_trie/naive_trie_b_f_iter.rs` and `src/map/trie_builder.rs`: the bits are set
// as the nodes are taken.
ghost use Rattle.std.specs.Prelude.{◌≡◌, ◌∷◌, ◌≤◌, length, get_or, replicate};
ghost use Rattle.std.proofs.lemmas.List.Edits.{sets};
ghost use Rattle.keymap.specs.Buffers.{over};
ghost use Rattle.image.specs.Buffers.{with_run};
ghost use Rattle.image.specs.LevelOrder.{child_records, level_records, pool_words};
ghost use Rattle.image.specs.Build.{CanQueue, Levels};

use crate::buffers::words_for;
use louds::put_one;
use records::words::{first_child, next_sibling};

// The first words become 0, whatever they were.
fn clear(words: &mut [u64], count: usize)
    requires { count ≤ length words.old }
    ensures { words.new ≡ over (replicate count 0) words.old }
{
    words[..count].fill(0);
}

// The record of the k-th that is taken: the root, then those of the queue.
fn record_at(queue: &[u32], k: usize) -> u32
    requires { k ≤ length queue.now }
    ensures { result ≡ get_or (0 ∷ queue.now) k 0 }
{
    if k == 0 { 0 } else { queue[k - 1] }
}

// Puts the children of record c into the queue, from entry `tail` on, and a one for each into the bits, from place `at`
// on. How many they are: only the 0 that ends their chain shows that, as it is the pool's format, so a `while`.
fn queue_children(
    pool: &[u32],
    c: u32,
    words: &mut [u64],
    at: usize,
    queue: &mut [u32],
    tail: usize,
) -> usize
    requires { CanQueue pool.now c at queue.old tail }
    ensures count { result ≡ length (child_records pool.now c) }
    ensures ones { words.new ≡ with_run words.old at (length (child_records pool.now c)) }
    ensures queued { queue.new ≡ sets queue.old tail (child_records pool.now c) }
{
    let mut d = 0;
    let mut x = first_child(pool, c);
    while x != 0 {
        queue[tail + d] = x;
        put_one(words, at + d);
        d += 1;
        x = next_sibling(pool, x);
    }
    d
}

// All levels: the queue ends as the level order of the n records in use, and the words as the bits of their degrees.
pub fn write_levels(pool: &[u32], n: u32, words: &mut [u64], queue: &mut [u32])
    requires { Levels pool.now n words.old queue.old }
    ensures bits { words.new ≡ over (pool_words pool.now) words.old }
    ensures order { queue.new ≡ over (level_records pool.now) queue.old }
{
    let count = words_for(n);
    clear(words, count);
    // the sequence begins with 1, 0
    put_one(words, 0);
    let mut at = 2;
    let mut tail = 0;
    for k in 0..n as usize + 1 {
        let c = record_at(queue, k);
        let d = queue_children(pool, c, words, at, queue, tail);
        tail += d;
        // a one for each child, and a zero
        at += d + 1;
    }
}
