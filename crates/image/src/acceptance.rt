// The image test: are these slices the image of some map? One pass over the entries and two over the words, linear in
// n, with no memory of its own;
// it ends on any words.
ghost use Rattle.std.specs.Prelude.{◌≡◌, cond, ◌+◌, ◌*◌, length, ltb};
ghost use Rattle.keymap.specs.Label.{mark};
ghost use Rattle.image.specs.Meaning.{lent_image};
ghost use Rattle.image.specs.AcceptTest.{passes_from, lengths_fit, image_test};
ghost use Rattle.image.specs.WordTest.{entries_fit, Framed};

use crate::buffers::words_for;
use crate::entries::MARK;
use crate::word_test::words_fit;
use louds::{WORD_BITS, ones_before};
use records::words::MOST_RECORDS;

// An image has no more nodes besides the root.
const MOST_NODES: usize = MOST_RECORDS as usize;

// The value of an unmarked entry, which has to be 0; 0 of a marked one.
fn unmarked_value(entry: u16, value: u32) -> u32
    ensures { result ≡ cond (ltb entry mark) value 0 }
{
    if entry < MARK { value } else { 0 }
}

// Every entry is below 512, and every unmarked one has value 0. All are gathered, so that no branch is taken on any of
// them.
fn entries_fit(labels: &[u16], values: &[u32]) -> bool
    requires { length values.now ≡ length labels.now }
    ensures { result ≡ entries_fit labels.now values.now }
{
    let mut any = 0;
    let mut bad = 0;
    for (&entry, &value) in labels.iter().zip(values) {
        any |= entry;
        bad |= unmarked_value(entry, value);
    }
    bad == 0 && any < 2 * MARK
}

// The bits from the third on fit, and the ones are as many as the nodes.
fn passes(labels: &[u16], values: &[u32], words: &[u64]) -> bool
    requires as_many { length values.now ≡ length labels.now }
    requires framed { Framed labels.now words.now }
    ensures { result ≡ passes_from (lent_image labels values words) (2 * length labels.now + 1) 2 1 0 }
{
    let n = labels.len();
    // so every node that a bit names has its entry
    ones_before(words, 2 * n + 3) == n + 1
        && entries_fit(labels, values)
        && words_fit(labels, words)
}

// Whether there are at most 4,096 nodes besides the root, and as many values and words as these ask for.
#[tactic(auto, using(std::proofs::lemmas::Bool::Decides::nat_tests), unfolding(crate::specs::AcceptTest::lengths_fit))]
pub fn lengths_fit(labels: &[u16], values: &[u32], words: &[u64]) -> bool
    ensures { result ≡ lengths_fit (lent_image labels values words) }
{
    let n = labels.len();
    n <= MOST_NODES && values.len() == n && words.len() == words_for(n as u32)
}

// Whether the slices are the image of some map. A test that fails ends it, since each is asked only where those before
// it held; in one line of `&&` it would not be plainer.
pub fn is_image(labels: &[u16], values: &[u32], words: &[u64]) -> bool
    ensures { result ≡ image_test (lent_image labels values words) }
{
    if !lengths_fit(labels, values, words) {
        return false;
    }
    let len = 2 * labels.len() + 3;
    if words[len / WORD_BITS] >> (len % WORD_BITS) != 0 {
        return false;
    }
    // the sequence begins with 1, 0
    if words[0] % 4 != 1 {
        return false;
    }
    passes(labels, values, words)
}
