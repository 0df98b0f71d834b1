// The labels on the way up from a node, written to a buffer from the last to the first. The climb begins with one look
// from bit 0 on,
// and then goes over the bits once, since each perch knows where its one is.
ghost use Rattle.std.specs.Prelude.{◌≡◌, length};
ghost use Rattle.keymap.specs.Label.{label_in};
ghost use Rattle.keymap.specs.Bits.{bit};
ghost use Rattle.climbs.specs.Spelling.{has_entry, spelled_by};

use crate::perches::{parent_of, perch_at};
use image::MARK;
use louds::Sequence;

fn label_in(entry: u16) -> u8
    ensures { result ≡ label_in entry }
{
    (entry % MARK) as u8
}

// Node m of 2 or more has entry m-2.
#[tactic(auto, unfolding(crate::specs::Spelling::has_entry))]
fn has_entry(labels: &[u16], node: usize) -> bool
    ensures { result ≡ has_entry (length labels.now) node }
{
    2 <= node && node <= labels.len() + 1
}

// Writes the last `count` labels on the way down to a node to the front of a buffer; the bytes past them stay, and a
// buffer that is shorter stays whole.
// The climb ends early at a node that has no entry or no parent.
#[tactic(auto, unfolding(crate::specs::Spelling::has_entry))]
pub fn spell(labels: &[u16], bits: Sequence, node: usize, count: usize, out: &mut [u8])
    ensures { out.new
        ≡ spelled_by labels.now (bit bits.entry.words.now) bits.entry.len node count out.old }
{
    if out.len() < count {
        return;
    }
    let mut at = perch_at(bits, node);
    for place in (0..count).rev() {
        if !has_entry(labels, at.node) {
            return;
        }
        out[place] = label_in(labels[at.node - 2]);
        let Some(up) = parent_of(bits, at) else {
            return;
        };
        at = up;
    }
}
