// The cases of listings. The cursor is handed in and the one to go on with handed back.
use crate::spelling::key;
use keymap::Refusal;
use replay::entries::{Entry, hex};
use replay::memory::{LONGEST, LentImage};
use replay::parts::part;
use replay::printing::{BAR, END, FINISHED, LAST, TOP, accepted, number, text};
use replay::text::Case;
use trie::{Cursor, Kind, Stepped};

// The most steps of a listing: one for each of 4,096 nodes, and two ends.
const STEPS: u32 = 4098;

fn tell(rt: &impl Print, cursor: Cursor) {
    match cursor {
        Cursor::Open { kind, top, last } => {
            number(rt, kind as u32);
            text(rt, TOP);
            number(rt, top);
            text(rt, LAST);
            number(rt, last);
        }
        Cursor::Finished { kind } => {
            number(rt, kind as u32);
            text(rt, FINISHED);
        }
    }
}

// The cursor to go on with, none where the step is refused.
fn step(rt: &impl Print, image: LentImage, cursor: Cursor) -> Option<Cursor> {
    match accepted(
        rt,
        trie::step(image.labels, image.values, image.words, cursor),
    )? {
        Stepped::Gave { node, value, next } => {
            number(rt, node);
            number(rt, value);
            Some(next)
        }
        Stepped::End { next } => {
            text(rt, END);
            Some(next)
        }
    }
}

// A whole listing, each step with the key that it gave, up to the second end. There are no more keys than nodes.
fn listing(rt: &impl Print, image: LentImage, first: Cursor) -> Cursor {
    let mut cursor = first;
    let mut ended = false;
    tell(rt, first);
    for _ in 0..STEPS {
        text(rt, BAR);
        cursor = step(rt, image, cursor).unwrap_or(cursor);
        if let Cursor::Open { .. } = cursor {
            key(rt, image, cursor, LONGEST);
        } else if ended {
            return cursor;
        } else {
            ended = true;
        }
    }
    cursor
}

fn list(rt: &impl Print, image: LentImage, answer: Result<Cursor, Refusal>) -> Option<Cursor> {
    let first = accepted(rt, answer)?;
    Some(listing(rt, image, first))
}

fn step_once(rt: &impl Print, image: LentImage, cursor: Cursor) -> Option<Cursor> {
    let next = step(rt, image, cursor)?;
    tell(rt, next);
    Some(next)
}

// A cursor of any numbers: a kind in two digits, and a top in eight; with no top it is finished.
fn made(rt: &impl Print, case: Case) -> Cursor {
    let kind = match hex(part(case.digits, 0, 2)) % 2 {
        0 => Kind::Predictive,
        _ => Kind::Postfix,
    };
    let top = part(case.digits, 2, 8);
    let cursor = if top.is_empty() {
        Cursor::finished(kind)
    } else {
        Cursor::Open {
            kind,
            top: u32::spelled(top),
            last: case.number,
        }
    };
    tell(rt, cursor);
    cursor
}

// The answer to a case that is a cursor's, and the cursor to go on with: a refusal leaves it as it was. No other case
// writes anything.
pub fn answer(
    rt: &impl Print,
    case: Case,
    query: &[u8],
    image: LentImage,
    cursor: Cursor,
) -> Cursor {
    let next = match case.letter {
        b'f' => list(
            rt,
            image,
            trie::predictive_search(image.labels, image.values, image.words, query),
        ),
        b'g' => list(
            rt,
            image,
            trie::postfix_search(image.labels, image.values, image.words, query),
        ),
        b'C' => Some(made(rt, case)),
        b'S' => step_once(rt, image, cursor),
        _ => None,
    };
    next.unwrap_or(cursor)
}
