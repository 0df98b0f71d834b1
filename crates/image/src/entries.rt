// The entries of the nodes besides the root: label entries and values, from the records of the level order.
ghost use Rattle.std.specs.Prelude.{◌≡◌, map, take};
ghost use Rattle.records.specs.Words.{entry, value};
ghost use Rattle.keymap.specs.Buffers.{over};
ghost use Rattle.image.specs.Build.{CanTell};

use records::words::{entry_of, value_of};

// What a value adds to its label.
pub const MARK: u16 = records::words::MARK as u16;

// Writes the first n records of a list, each with its label entry and its value.
pub fn write_entries(pool: &[u32], order: &[u32], n: u32, labels: &mut [u16], values: &mut [u32])
    requires { CanTell pool.now order.now n labels.old values.old }
    ensures labels { labels.new
        ≡ over (map (entry pool.now) (take n order.now)) labels.old }
    ensures values { values.new
        ≡ over (map (value pool.now) (take n order.now)) values.old }
{
    for j in 0..n as usize {
        let c = order[j];
        labels[j] = entry_of(pool, c) as u16;
        values[j] = value_of(pool, c);
    }
}
