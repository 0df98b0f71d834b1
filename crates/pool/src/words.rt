// Writing the words of a record that lies inside the pool.
ghost use Rattle.std.specs.Prelude.{◌≡◌, ◌+◌, ◌*◌, ◌<◌, ◌≤◌, length};
ghost use Rattle.records.specs.Words.{record_words, put, taken};
ghost use Rattle.pool.specs.Writing.{Inside, filled, linked, marked};

use records::words::{MARK, RECORD_WORDS, label_of};

fn set_word(pool: &mut [u32], c: u32, k: u32, v: u32)
    requires { record_words * c + k < length pool.old }
    ensures { pool.new ≡ put pool.old c k v }
{
    pool[RECORD_WORDS * (c as usize) + k as usize] = v;
}

// All five words of record c: label b, no value, no child, next sibling x, parent i. Stored one by one, each as what it
// is: an array copied over them would be no shorter.
pub fn fill(pool: &mut [u32], c: u32, b: u32, x: u32, i: u32)
    requires { Inside pool.old c }
    ensures { pool.new ≡ filled pool.old c b x i }
{
    set_word(pool, c, 0, b);
    set_word(pool, c, 1, 0);
    set_word(pool, c, 2, 0);
    set_word(pool, c, 3, x);
    set_word(pool, c, 4, i);
}

// Record m becomes the sibling after a or, where a is 0, the first child of i: by 0 a pool's words say that there is
// none.
pub fn link(pool: &mut [u32], i: u32, a: u32, m: u32)
    requires { Inside pool.old i × Inside pool.old a }
    ensures { pool.new ≡ linked pool.old i a m }
{
    if a == 0 {
        set_word(pool, i, 2, m);
    } else {
        set_word(pool, a, 3, m);
    }
}

// The root's words are brought up to date: record m is taken.
pub fn take(pool: &mut [u32], m: u32)
    requires { Inside pool.old 0 }
    ensures { pool.new ≡ taken pool.old m }
{
    set_word(pool, 0, 0, m);
}

// Record c gets the mark and the value v; its label stays.
pub fn mark(pool: &mut [u32], c: u32, v: u32)
    requires { Inside pool.old c }
    ensures { pool.new ≡ marked pool.old c v }
{
    let e = label_of(pool, c) + MARK;
    set_word(pool, c, 0, e);
    set_word(pool, c, 1, v);
}
