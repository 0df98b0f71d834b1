// The cases of incremental searches. The place is handed in, and where it is left handed back.
use crate::spelling::path;
use keymap::Refusal;
use replay::memory::{LONGEST, LentImage};
use replay::printing::{AT, BOTH, ERR, MATCH, NONE, OK, PREFIX, accepted, found, number, text};
use replay::text::Case;
use trie::place::{Answer, Place};

fn at(rt: &impl Print, place: Place) {
    text(rt, AT);
    number(rt, place.node);
}

fn tell(rt: &impl Print, answer: Answer) {
    match answer {
        Answer::Prefix => text(rt, PREFIX),
        Answer::Match => text(rt, MATCH),
        Answer::PrefixAndMatch => text(rt, BOTH),
    }
}

// The place at a node's number; a refusal leaves the one that was.
fn resumed(rt: &impl Print, answer: Result<Place, Refusal>, here: Place) -> Place {
    let Some(place) = accepted(rt, answer) else {
        return here;
    };
    at(rt, place);
    place
}

// The answer to a label, and the place after it.
fn queried(rt: &impl Print, answer: Result<Option<Answer>, Refusal>, place: Place) {
    let Some(found) = accepted(rt, answer) else {
        return;
    };
    match found {
        Some(answer) => tell(rt, answer),
        None => text(rt, NONE),
    }
    at(rt, place);
}

// The answer to a query, or the index where it failed, and the place after it.
fn followed(rt: &impl Print, answer: Result<Result<Answer, usize>, Refusal>, place: Place) {
    let Some(found) = accepted(rt, answer) else {
        return;
    };
    match found {
        Ok(answer) => tell(rt, answer),
        Err(index) => {
            text(rt, ERR);
            number(rt, index);
        }
    }
    at(rt, place);
}

// How far a place moved, to a key or not, and the place after it.
fn gone(rt: &impl Print, answer: Result<Result<usize, usize>, Refusal>, place: Place) {
    let Some(found) = accepted(rt, answer) else {
        return;
    };
    match found {
        Ok(distance) => {
            text(rt, OK);
            number(rt, distance);
        }
        Err(distance) => {
            text(rt, ERR);
            number(rt, distance);
        }
    }
    at(rt, place);
}

// The length of the path, then the path.
fn whole_prefix(rt: &impl Print, image: LentImage, place: Place) {
    let answer = trie::place::prefix_len(image.labels, image.values, image.words, place);
    if let Some(length) = accepted(rt, answer) {
        number(rt, length);
        path(rt, image, place, LONGEST);
    }
}

// The answer to a case that is a place's, and the place after it; no other case writes anything.
pub fn answer(rt: &impl Print, case: Case, query: &[u8], image: LentImage, place: Place) -> Place {
    let LentImage {
        labels,
        values,
        words,
    } = image;
    let label = (case.number % 256) as u8;
    match case.letter {
        b't' => {
            queried(
                rt,
                trie::place::peek(labels, values, words, place, label),
                place,
            );
            place
        }
        b'v' => {
            found(rt, trie::place::value(labels, values, words, place));
            place
        }
        b'x' => {
            whole_prefix(rt, image, place);
            place
        }
        b'r' => resumed(
            rt,
            trie::place::resume(labels, values, words, case.number),
            place,
        ),
        b'R' => {
            number(rt, case.number);
            Place { node: case.number }
        }
        b'a' => {
            let moved = trie::place::query_at(labels, values, words, place.node, label);
            let after = Place { node: moved.node };
            queried(rt, moved.answer, after);
            after
        }
        b'q' => {
            let moved = trie::place::query_until_at(labels, values, words, place.node, query);
            let after = Place { node: moved.node };
            followed(rt, moved.answer, after);
            after
        }
        b'o' => {
            let moved = trie::place::goto_at(labels, values, words, place.node);
            let after = Place { node: moved.node };
            gone(rt, moved.answer, after);
            after
        }
        _ => place,
    }
}
