// What every call on a place tests first.
ghost use Rattle.std.specs.Prelude.{◌≡◌};
ghost use Rattle.image.specs.Meaning.{lent_image};
ghost use Rattle.places.specs.Incremental.{checked_place};

use image::accept;
use keymap::Refusal;
use walks::entries::is_node;

// Slices that are no image are refused, and then a number that is no node's.
pub fn check_place(labels: &[u16], values: &[u32], words: &[u64], node: u32) -> Result<(), Refusal>
    ensures { result ≡ checked_place (lent_image labels values words) node }
{
    accept(labels, values, words)?;
    if !is_node(labels, node) {
        return Err(Refusal::BadPlace);
    }
    Ok(())
}
