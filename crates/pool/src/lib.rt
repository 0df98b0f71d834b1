// A pool of records in a lent slice of u32: reset it, push keys with their values, ask how many records are in use.
// Of a pool of L words at most L / 5 - 1 records can be taken, and never more than 4,096; record 0 is the root and is
// not counted.
// A push that lacks room finds that out before it writes, and every refusal leaves the pool as it was.
// After `src/map/trie_builder.rs` and `src/internal_data_structure/naive_trie/naive_trie_impl.rs`.
#![tactic(auto)]

mod path;
mod pushing;
mod siblings;
pub mod soundness;
mod words;

ghost use Rattle.std.specs.Prelude.{◌≡◌};
ghost use Rattle.pool.specs.Answers.{said_cleared, said_counted, said_pushed};
ghost use Rattle.pool.specs.Reset.{reset_says, reset_pool};
ghost use Rattle.pool.specs.UseCount.{use_count_says};
ghost use Rattle.pool.specs.Push.{push_says, push_pool};

use crate::pushing::push_tested;
use crate::soundness::check_sound;
use crate::words::fill;
use keymap::Refusal;
use records::words::{RECORD_WORDS, used_count};

// Zeroes record 0 of any pool of 5 words or more.
pub fn reset(pool: &mut [u32]) -> Result<(), Refusal>
    ensures answer { said_cleared result ≡ reset_says pool.old }
    ensures left { pool.new ≡ reset_pool pool.old }
{
    if pool.len() < RECORD_WORDS {
        return Err(Refusal::PoolTooSmall);
    }
    fill(pool, 0, 0, 0, 0);
    Ok(())
}

// The number of records in use, the root left out.
pub fn use_count(pool: &[u32]) -> Result<u32, Refusal>
    ensures answer { said_counted result ≡ use_count_says pool.now }
{
    check_sound(pool).map(|()| used_count(pool))
}

// Gives the key the value; the records that its path lacks are taken. A refusal leaves the pool as it was.
pub fn push(pool: &mut [u32], key: &[u8], value: u32) -> Result<(), Refusal>
    ensures answer { said_pushed result ≡ push_says pool.old key.now }
    ensures left { pool.new ≡ push_pool pool.old key.now value }
{
    check_sound(pool)?;
    push_tested(pool, key, value)
}
