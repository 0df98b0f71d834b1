// The path of a key through the records, and the records that are entered where it ends too soon.
ghost use Rattle.std.specs.Prelude.{◌≡◌, ◌+◌, ◌-◌, ◌<◌, ◌≤◌, length, drop};
ghost use Rattle.records.specs.Words.{next_record};
ghost use Rattle.pool.specs.Path.{reach_of};
ghost use Rattle.pool.specs.Entering.{CanEnter, CanEnterAll, entered, entered_all, last_entered};

use crate::siblings::{child_at, slot_of};
use crate::words::{fill, link, take};
use records::words::last_record;

// How far down a key leads: the record, and how many bytes led there.
#[derive(Clone, Copy)]
pub struct Reach {
    pub at: u32,
    pub depth: usize,
}

// As far down from the root as the key's bytes lead.
pub fn reach_of(pool: &[u32], key: &[u8]) -> Reach
    ensures { result ≡ reach_of pool.now key.now }
{
    let mut at = 0;
    for (depth, &label) in key.iter().enumerate() {
        let Some(child) = child_at(pool, at, u32::from(label)) else {
            return Reach { at, depth };
        };
        at = child;
    }
    Reach {
        at,
        depth: key.len(),
    }
}

// One record more, with label b, among the children of i; its number.
fn enter(pool: &mut [u32], i: u32, b: u32) -> u32
    requires { CanEnter pool.old i b }
    ensures { (result ≡ next_record pool.old) × (pool.new ≡ entered pool.old i b) }
{
    let m = last_record(pool) + 1;
    let slot = slot_of(pool, i, b);
    fill(pool, m, b, slot.next, i);
    link(pool, i, slot.prev, m);
    take(pool, m);
    m
}

// A record below `at` for each of the bytes, each below the one before; the last of them.
pub fn enter_all(pool: &mut [u32], at: u32, bytes: &[u8]) -> u32
    requires { CanEnterAll pool.old at bytes.now }
    ensures { (result ≡ last_entered pool.old at bytes.now) × (pool.new ≡ entered_all pool.old at bytes.now) }
{
    let mut last = at;
    for &label in bytes {
        last = enter(pool, last, u32::from(label));
    }
    last
}
