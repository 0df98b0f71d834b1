// The words of a pool: what each one of a record means, read at any record number. A record beyond the pool's end reads
// as 0 throughout.
ghost use Rattle.std.specs.Prelude.{◌≡◌};
ghost use Rattle.records.specs.Words.{word, entry, label, value, first_child, next_sibling, parent, last_record};
ghost use Rattle.records.specs.Words.{used_count, capacity};

pub const RECORD_WORDS: usize = 5;

pub const MOST_RECORDS: u32 = 4096;

pub const BYTE_LIMIT: u32 = 256;
// What a value adds to the label in word 0.
pub const MARK: u32 = 256;

// Word k of record c.
#[tactic(auto, unfolding(crate::specs::Words::word))]
fn word_at(pool: &[u32], c: u32, k: u32) -> u32
    ensures { result ≡ word pool.now c k }
{
    let at = RECORD_WORDS * (c as usize) + k as usize;
    pool.get(at).copied().unwrap_or(0)
}

// The label, plus 256 if the record has a value.
pub fn entry_of(pool: &[u32], c: u32) -> u32
    ensures { result ≡ entry pool.now c }
{
    word_at(pool, c, 0)
}

pub fn label_of(pool: &[u32], c: u32) -> u32
    ensures { result ≡ label pool.now c }
{
    word_at(pool, c, 0) % BYTE_LIMIT
}

// The value word, 0 if there is no value.
pub fn value_of(pool: &[u32], c: u32) -> u32
    ensures { result ≡ value pool.now c }
{
    word_at(pool, c, 1)
}

pub fn first_child(pool: &[u32], c: u32) -> u32
    ensures { result ≡ first_child pool.now c }
{
    word_at(pool, c, 2)
}

pub fn next_sibling(pool: &[u32], c: u32) -> u32
    ensures { result ≡ next_sibling pool.now c }
{
    word_at(pool, c, 3)
}

pub fn parent_of(pool: &[u32], c: u32) -> u32
    ensures { result ≡ parent pool.now c }
{
    word_at(pool, c, 4)
}

// The highest record that may be in use.
#[tactic(auto, unfolding(crate::specs::Words::last_record))]
pub fn last_record(pool: &[u32]) -> u32
    ensures { result ≡ last_record pool.now }
{
    word_at(pool, 0, 0)
}

// How many records are in use, the root left out.
#[tactic(auto, unfolding(crate::specs::Words::used_count))]
pub fn used_count(pool: &[u32]) -> u32
    ensures { result ≡ used_count pool.now }
{
    last_record(pool)
}

// How many records there may be besides the root: in a pool of 5 to 9 words none.
pub fn capacity_of(pool: &[u32]) -> u32
    ensures { result ≡ capacity pool.now }
{
    let records = pool.len() / RECORD_WORDS;
    records.saturating_sub(1).min(MOST_RECORDS as usize) as u32
}
