// The children of a record, which their chain names with labels rising. Total: the search takes no more steps than
// there are records.
ghost use Rattle.std.specs.Prelude.{◌≡◌};
ghost use Rattle.pool.specs.Siblings.{slot_of, child_at};

use records::words::{first_child, label_of, last_record, next_sibling};

// A place among siblings: the one before it and the one that stands there, 0 where there is none. That is the format
// of a pool's words, and as they stand both are written into them.
#[derive(Clone, Copy)]
pub struct Slot {
    pub prev: u32,
    pub next: u32,
}

// Where label b stands among the children of i, or would stand.
pub fn slot_of(pool: &[u32], i: u32, b: u32) -> Slot
    ensures { result ≡ slot_of pool.now i b }
{
    let mut slot = Slot {
        prev: 0,
        next: first_child(pool, i),
    };
    for _ in 0..last_record(pool) {
        if slot.next == 0 || b <= label_of(pool, slot.next) {
            break;
        }
        slot = Slot {
            prev: slot.next,
            next: next_sibling(pool, slot.next),
        };
    }
    slot
}

// The child of i with label b.
pub fn child_at(pool: &[u32], i: u32, b: u32) -> Option<u32>
    ensures { result ≡ child_at pool.now i b }
{
    let next = slot_of(pool, i, b).next;
    if next != 0 && label_of(pool, next) == b {
        return Some(next);
    }
    None
}
