// Going down along a query by those words of the bits that lie inside as a whole: a walk keeps the word that has its
// node's zero, with the zeros up to the end of each of its bytes, and goes on from there. Where a zero stands in none
// of these words it stops, and `queries::go_on` takes the other steps from the word kept on.
ghost use Rattle.std.specs.Prelude.{◌≡◌, ◌/◌, min, length};
ghost use Rattle.keymap.specs.Limits.{word_bits};
ghost use Rattle.keymap.specs.Bits.{bit};
ghost use Rattle.walks.specs.Rule.{walked};
ghost use Rattle.walks.specs.Stands.{reached_at};
ghost use Rattle.descents.specs.Far.{PassedFrom, Ready, Wide, ZeroWord, stand_near, went_on};

use louds::{Sequence, WORD_BITS, lowest_one, ones_by_byte, ones_from, ones_in};
use walks::siblings::child_within;
use walks::stands::Stand;

// Where more zeros are to be passed, four words are counted at once. Any number would be right; with others more
// instructions were taken.
const FAR: usize = 110;

// Words that are passed, and the zeros that are left.
#[derive(Clone, Copy)]
pub struct Passed {
    pub words: usize,
    pub left: usize,
}

// The words up to the one kept and with it, the zeros from its start on to the node's, all its zeros, and those up to
// the end of each of its bytes.
#[derive(Clone, Copy)]
pub struct Kept {
    pub words: usize,
    pub left: usize,
    pub zeros: usize,
    pub sums: u64,
}

// How far whole words took a walk: to a node after some steps. The word kept is word kept-1, and from its start on the
// node's zero is the `left`-th. Where `kept` is 0 no word is kept yet, and the zero is the `left`-th from bit 0 on.
#[derive(Clone, Copy)]
pub struct Headway {
    pub node: usize,
    pub steps: usize,
    pub kept: usize,
    pub left: usize,
}

// Words are passed four at a time, while fewer zeros stand in the four than are left.
fn pass_fours(words: &[u64], whole: usize, first: usize, k: usize) -> Passed
    ensures { PassedFrom words.now first k result }
{
    let mut w = first;
    let mut left = k;
    if words.len() < whole || whole < first {
        return Passed { words: w, left };
    }
    // not a `for` over chunks of four words: the word that is come to is answered, and would be counted beside them
    while w + 4 <= whole {
        let ones = ones_in(words[w])
            + ones_in(words[w + 1])
            + ones_in(words[w + 2])
            + ones_in(words[w + 3]);
        let zeros = 256 - ones;
        if left <= zeros {
            break;
        }
        left -= zeros;
        w += 4;
    }
    Passed { words: w, left }
}

// The word that has the k-th zero of the words from `first` on, if that is one of the first `whole`.
fn pass(words: &[u64], whole: usize, first: usize, k: usize) -> Option<Kept>
    ensures { Ready words.now whole first k result }
{
    let mut left = k;
    for w in first..whole.min(words.len()) {
        let sums = ones_by_byte(!words[w]);
        let zeros = (sums >> 56) as usize;
        if left <= zeros {
            return Some(Kept {
                words: w + 1,
                left,
                zeros,
                sums,
            });
        }
        left -= zeros;
    }
    None
}

// The same, with words passed by fours where many zeros are to be passed.
fn pass_on(words: &[u64], whole: usize, first: usize, k: usize) -> Option<Kept>
    ensures { Ready words.now whole first k result }
{
    if k <= FAR {
        return pass(words, whole, first, k);
    }
    let p = pass_fours(words, whole, first, k);
    pass(words, whole, p.words, p.left)
}

// The first word from `first` on that has a zero, if one of the first `whole` has.
fn word_with_zero(words: &[u64], whole: usize, first: usize) -> Option<usize>
    ensures { ZeroWord words.now whole first result }
{
    for w in first..whole.min(words.len()) {
        if words[w] != u64::MAX {
            return Some(w);
        }
    }
    None
}

// How many words lie inside the bits as a whole. That no word is wider than 64 bits a slice tells, and a slice inside a
// `Sequence` does not.
fn whole_words(words: &[u64], len: usize) -> usize
    ensures count { result ≡ min (length words.now) (len / word_bits) }
    ensures wide { Wide words.now }
{
    words.len().min(len / WORD_BITS)
}

// Down from node 1 along a query, as far as the zeros stand in whole words.
pub fn go_far(labels: &[u16], bits: Sequence, query: &[u8]) -> Option<Headway>
    ensures { went_on labels.now (bit bits.entry.words.now) bits.entry.len query.now result
        ≡ reached_at (bit bits.entry.words.now) bits.entry.len
        (walked labels.now (bit bits.entry.words.now) bits.entry.len query.now) }
{
    let whole = whole_words(bits.words, bits.len);
    let mut node: usize = 1;
    // no word yet: one zero is to be passed, from bit 0 on
    let mut kept = Kept {
        words: 0,
        left: 1,
        zeros: 0,
        sums: 0,
    };
    // all of them, where none leads out of the whole words
    let mut steps = query.len();
    for i in 0..query.len() {
        if kept.zeros < kept.left {
            let Some(next) = pass_on(bits.words, whole, kept.words, kept.left - kept.zeros) else {
                steps = i;
                break;
            };
            kept = next;
        }
        let rest = ones_from(!bits.words[kept.words - 1], kept.sums, kept.left);
        let base = kept.words * WORD_BITS - node;
        let from = base + lowest_one(rest) - 63;
        let more = rest & (rest - 1);
        let to = if more != 0 {
            base + lowest_one(more) - 64
        } else if let Some(v) = word_with_zero(bits.words, whole, kept.words) {
            v * WORD_BITS + lowest_one(!bits.words[v]) - node
        } else {
            steps = i;
            break;
        };
        let m = child_within(labels, node, from, to, query[i])?;
        kept.left += m - node;
        node = m;
    }
    Some(Headway {
        node,
        steps,
        kept: kept.words,
        left: kept.left,
    })
}

// The stand at a node whose zero is the `left`-th from the start of word kept-1 on, or of word 0 where `kept` is 0.
pub fn stand_near(bits: Sequence, node: usize, kept: usize, left: usize) -> Stand
    ensures { result ≡ stand_near (bit bits.entry.words.now) bits.entry.len node kept left }
{
    let last = kept.saturating_sub(1);
    // a word that begins behind the end has none of the bits
    if bits.len / WORD_BITS < last {
        return Stand {
            node,
            zero: bits.len,
        };
    }
    Stand {
        node,
        zero: bits.zero_from(last * WORD_BITS, left).unwrap_or(bits.len),
    }
}
