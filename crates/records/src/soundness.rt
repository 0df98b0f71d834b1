// Is this slice a sound pool? One pass over the records and their chains, with no memory of its own: each record met in
// a chain is counted off,
// so the pass ends on any words, also where chains loop or numbers lie beyond the pool.
ghost use Rattle.std.specs.Prelude.{◌≡◌, true, ◌↔◌, suc, ◌≤◌, Some};
ghost use Rattle.keymap.specs.Limits.{most_records};
ghost use Rattle.records.specs.Words.{first_child};
ghost use Rattle.records.specs.Sound.{Sound};
ghost use Rattle.records.specs.SoundTest.{words_fit, record_fits, is_child, chain_rest, record_rest, pass_rest};
ghost use Rattle.records.specs.SoundTest.{root_fits, sound_test};

use crate::words::{
    BYTE_LIMIT, MARK, RECORD_WORDS, capacity_of, entry_of, first_child, label_of, last_record,
    next_sibling, parent_of, used_count, value_of,
};

// Five words can be those of record c, where n is the last record.
#[tactic(auto, using(crate::proofs::Laws::SoundTest::tests), unfolding(crate::specs::SoundTest::words_fit))]
fn words_fit(n: u32, c: u32, e: u32, v: u32, f: u32, x: u32, q: u32) -> bool
    ensures { result ≡ words_fit n c e v f x q }
{
    c == 0
        || (e < BYTE_LIMIT + MARK && f <= n && x <= n && q < c && (MARK <= e || (v == 0 && 0 < f)))
}

#[tactic(auto, unfolding(crate::specs::SoundTest::record_fits))]
fn record_fits(pool: &[u32], n: u32, c: u32) -> bool
    ensures { result ≡ record_fits pool.now n c }
{
    let e = entry_of(pool, c);
    let v = value_of(pool, c);
    let f = first_child(pool, c);
    let x = next_sibling(pool, c);
    let q = parent_of(pool, c);
    words_fit(n, c, e, v, f, x, q)
}

// Record x, met in the chain of record c where labels from l on are allowed, is a child of c.
#[tactic(auto, using(crate::proofs::Laws::SoundTest::tests), unfolding(crate::specs::SoundTest::is_child))]
fn is_child(pool: &[u32], n: u32, c: u32, x: u32, l: u32) -> bool
    ensures { result ≡ is_child pool.now n c x l }
{
    x <= n && parent_of(pool, x) == c && l <= label_of(pool, x)
}

// The chain of record c, where `all` records are left to be met: how many are left after it, `None` where it is broken.
// The 0 that ends a chain is the pool's format, and how long it is only its end shows: so a `while`.
#[tactic(auto, using(crate::proofs::Laws::SoundTest::chain_cases))]
fn chain(pool: &[u32], n: u32, c: u32, all: u32) -> Option<u32>
    ensures { result ≡ chain_rest pool.now n c all (first_child pool.now c) 0 }
{
    let mut x = first_child(pool, c);
    let mut left = all;
    let mut l = 0;
    while x != 0 {
        left = left.checked_sub(1)?;
        if !is_child(pool, n, c, x, l) {
            return None;
        }
        l = label_of(pool, x) + 1;
        x = next_sibling(pool, x);
    }
    Some(left)
}

// Record c by its own words, then its chain.
#[tactic(auto, unfolding(crate::specs::SoundTest::record_rest))]
fn record_and_chain(pool: &[u32], n: u32, c: u32, left: u32) -> Option<u32>
    ensures { result ≡ record_rest pool.now n c (Some left) }
{
    if !record_fits(pool, n, c) {
        return None;
    }
    chain(pool, n, c, left)
}

// Records 0 to n, each with its chain: how many records are left after them, `None` where one is broken.
fn all_records(pool: &[u32], n: u32, all: u32) -> Option<u32>
    requires { n ≤ most_records }
    ensures { result ≡ pass_rest pool.now n all (suc n) }
{
    let mut left = all;
    for c in 0..n + 1 {
        left = record_and_chain(pool, n, c, left)?;
    }
    Some(left)
}

// The root's words, where there is room for `most` records.
#[tactic(auto, using(crate::proofs::Laws::SoundTest::tests), unfolding(crate::specs::SoundTest::root_fits))]
fn root_fits(n: u32, most: u32, value: u32, sibling: u32, parent: u32) -> bool
    ensures { result ≡ root_fits n most value sibling parent }
{
    n <= most && value == 0 && sibling == 0 && parent == 0
}

// Whether a slice is a sound pool: what the test says, and so that it is one.
pub fn is_sound(pool: &[u32]) -> bool
    ensures answer { result ≡ sound_test pool.now }
    ensures meaning { (result ≡ true) ↔ Sound pool.now }
{
    let n = last_record(pool);
    let v = value_of(pool, 0);
    let x = next_sibling(pool, 0);
    let q = parent_of(pool, 0);
    let most = capacity_of(pool);
    RECORD_WORDS <= pool.len()
        && root_fits(n, most, v, x, q)
        && all_records(pool, n, used_count(pool)) == Some(0)
}
