// A push into a pool that is tested: it asks for a sound pool, and leaves one.
ghost use Rattle.records.specs.Sound.{Sound};
ghost use Rattle.pool.specs.Push.{TestedPush};

use crate::path::{enter_all, reach_of};
use crate::words::mark;
use keymap::Refusal;
use records::words::{capacity_of, used_count};

// Push into a sound pool, which stays sound: first the refusals that are left, then the missing records, then the mark.
pub fn push_tested(pool: &mut [u32], key: &[u8], value: u32) -> Result<(), Refusal>
    requires { Sound pool.old }
    ensures { TestedPush pool.old key.now value result pool.new }
{
    if key.is_empty() {
        return Err(Refusal::EmptyKey);
    }
    let reach = reach_of(pool, key);
    let needed = used_count(pool) as usize + (key.len() - reach.depth);
    let most = capacity_of(pool) as usize;
    if most < needed {
        return Err(Refusal::NoRoom);
    }
    let end = enter_all(pool, reach.at, &key[reach.depth..]);
    mark(pool, end, value);
    Ok(())
}
