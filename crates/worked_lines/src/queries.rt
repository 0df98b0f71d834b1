// The cases of the searches with a query, over the image that is lent.
ghost use Rattle.std.specs.Prelude.{◌≤◌};

use keymap::Refusal;
use replay::memory::{LentImage, Memory};
use replay::parts::part;
use replay::printing::{BAR, NO, NONE, YES, accepted, byte, bytes, found, number, text};
use replay::text::Case;
use trie::Common;

fn untested(image: LentImage, query: &[u8]) -> Result<Option<u32>, Refusal> {
    trie::exact_match_untested(image.labels, image.values, image.words, query)
}

// The exact match, and behind it what the lookup that does not test the image tells, if that is another answer of an
// image that is accepted.
fn exact(rt: &impl Print, image: LentImage, query: &[u8]) {
    let tested = trie::exact_match(image.labels, image.values, image.words, query);
    found(rt, tested);
    let other = untested(image, query);
    if tested.is_ok() && other != tested {
        found(rt, other);
    }
}

// A digit, a point for no match, and an `x` for anything else.
fn figure(answer: Result<Option<u32>, Refusal>) -> u8 {
    match answer {
        Ok(Some(value)) if value < 10 => b'0' + value as u8,
        Ok(None) => b'.',
        _ => b'x',
    }
}

// How many of three letters the query t leaves out: it has those behind the highest one of t.
fn left_out(t: u8) -> usize
    ensures { result ≤ 3 }
{
    match t {
        0..2 => 3,
        2..4 => 2,
        4..8 => 1,
        _ => 0,
    }
}

// The lookup that does not test the image, of every query of at most three letters `a` and `b`, with these bits for its
// only word.
// The queries are numbered from 1 to 15.
fn table(rt: &impl Print, image: LentImage, bits: u32) {
    let words = &[bits as u64];
    byte(rt, b' ');
    for t in 1u8..16 {
        let letters = [b'a' + t / 4 % 2, b'a' + t / 2 % 2, b'a' + t % 2];
        let query = &letters[left_out(t)..];
        byte(rt, figure(untested(LentImage { words, ..image }, query)));
    }
}

fn is_prefix(rt: &impl Print, image: LentImage, query: &[u8]) {
    let answer = trie::is_prefix(image.labels, image.values, image.words, query);
    if let Some(longer) = accepted(rt, answer) {
        text(rt, if longer { YES } else { NO });
    }
}

// What is written of a common prefix, and how long it is.
fn common(rt: &impl Print, answer: Result<Option<Common>, Refusal>) -> Option<usize> {
    match accepted(rt, answer)? {
        Some(Common { length, value }) => {
            number(rt, length);
            number(rt, value);
            Some(length)
        }
        None => {
            text(rt, NONE);
            None
        }
    }
}

fn common_after(rt: &impl Print, image: LentImage, query: &[u8], seen: usize) -> Option<usize> {
    let LentImage {
        labels,
        values,
        words,
    } = image;
    let length = common(rt, trie::common_prefix(labels, values, words, query, seen));
    bytes(
        rt,
        trie::common_prefix_part(labels, values, words, query, seen),
    );
    length
}

// All of them: each is longer than the one before, so there are no more than the query has bytes.
fn common_all(rt: &impl Print, image: LentImage, query: &[u8]) {
    let mut seen = 0;
    for _ in 0..=query.len() {
        text(rt, BAR);
        let Some(length) = common_after(rt, image, query, seen) else {
            return;
        };
        seen = length;
    }
}

// The answer to a case that only reads; no other writes anything.
pub fn answer(rt: &impl Print, case: Case, query: &[u8], image: LentImage) {
    let n = case.number as usize;
    match case.letter {
        b'e' | b'E' => exact(rt, image, query),
        b'j' | b'J' => {
            found(rt, untested(image, query));
        }
        b'T' => table(rt, image, case.number),
        b'y' => is_prefix(rt, image, query),
        b'c' => common_all(rt, image, query),
        b'k' => {
            common_after(rt, image, query, n);
        }
        b'U' => {
            common_after(rt, image, query, usize::MAX - n);
        }
        _ => (),
    }
}

// The case that sets a value, over as much of the memory as is lent.
pub fn set_value(rt: &impl Print, value: u32, query: &[u8], memory: &mut Memory) {
    let lent = memory.lent;
    let values = &mut memory.values[..];
    let n = lent.values.min(values.len());
    let labels = part(&memory.labels, 0, lent.labels);
    let words = part(&memory.words, 0, lent.words);
    found(
        rt,
        trie::set_value(labels, &mut values[..n], words, query, value),
    );
}
