// The cases that write a key or prefix into a buffer.
use crate::held::Held;
use keymap::Refusal;
use replay::memory::{LONGEST, LentImage};
use replay::parts::part;
use replay::printing::{bytes, found};
use replay::text::Case;
use trie::Cursor;
use trie::place::Place;

// How many bytes were written into the buffer.
fn written(rt: &impl Print, answer: Result<Option<usize>, Refusal>) -> usize {
    found(rt, answer).unwrap_or(0)
}

// What is written into so many bytes: as many as `write` answers.
fn spell<F: FnOnce(&mut [u8]) -> usize>(rt: &impl Print, room: usize, write: F)
    requires { F.IsAlwaysCallable write }
{
    let mut space = [0u8; LONGEST];
    let out = &mut space[..];
    let n = room.min(out.len());
    let length = write(&mut out[..n]);
    bytes(rt, part(&space, 0, length.min(n)));
}

// The longest prefix, into so many bytes.
fn longest_prefix(rt: &impl Print, image: LentImage, query: &[u8], room: usize) {
    spell(rt, room, |out| {
        written(
            rt,
            trie::longest_prefix(image.labels, image.values, image.words, query, out),
        )
    });
}

// The cursor's key, into so many bytes.
pub fn key(rt: &impl Print, image: LentImage, cursor: Cursor, room: usize) {
    spell(rt, room, |out| {
        written(
            rt,
            trie::cursor_key(image.labels, image.values, image.words, cursor, out).map(Some),
        )
    });
}

// The place's path, into so many bytes.
pub fn path(rt: &impl Print, image: LentImage, place: Place, room: usize) {
    spell(rt, room, |out| {
        written(
            rt,
            trie::place::prefix(image.labels, image.values, image.words, place, out).map(Some),
        )
    });
}

// The answer to a case that writes into a buffer; no other writes anything.
pub fn answer(rt: &impl Print, case: Case, query: &[u8], image: LentImage, held: Held) {
    let room = case.number as usize;
    match case.letter {
        b'l' => longest_prefix(rt, image, query, LONGEST),
        b'M' => longest_prefix(rt, image, query, room),
        b'K' => key(rt, image, held.cursor, room),
        b'X' => path(rt, image, held.place, room),
        _ => (),
    }
}
