// Parts of slices.
ghost use Rattle.std.specs.Prelude.{◌≡◌, take, drop};

// The entries from an index on, as many as are asked or there are.
pub fn part<T>(all: &[T], from: usize, count: usize) -> &[T]
    ensures { result.now ≡ take count (drop from all.now) }
{
    let behind = if from < all.len() {
        &all[from..]
    } else {
        &all[..0]
    };
    if count < behind.len() {
        &behind[..count]
    } else {
        behind
    }
}
