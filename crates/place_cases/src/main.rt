// Places held in locals and lent to the moves: 01's lines on places, the places that belong to no image, and a place
// taken to another image.
//
// A line of the list `cases` has a letter, q for `query`, u for `query_until`, g for `goto_longest_prefix`; the place's
// node; an image of at most three nodes, as how many there are, their labels, their values and the word of bits; and
// the name of the case, which ends with what is asked. The images are the empty map's; A's ("ab" 7, "b" 3); that of "a"
// 1, "ab" 2, where "a" has the place that it has in A; and the last with one bit too many, which is none.
#![tactic(auto)]

ghost use Rattle.std.specs.Prelude.{◌≡◌, drop};
ghost use Rattle.replay.specs.Memory.{meant_image};
ghost use Rattle.places.specs.Incremental.{place_at, QueryPromise, FollowPromise, GotoPromise};

use keymap::Refusal;
use places::{Answer, Moved, Place, goto_longest_prefix, query, query_until};
use replay::entries::{hex, store};
use replay::lists::read_list;
use replay::memory::LentImage;
use replay::parts::part;
use replay::printing::{number, text};
use replay::text::{Case, letter, line_of};

// Where the image's parts and the name stand in a line, and what is asked of `query` and of `query_until`.
const COUNT: usize = 11;

const LABELS: usize = 13;

const VALUES: usize = 26;

const WORD: usize = 51;

const NAME: usize = 68;

const LABEL: usize = 74;

const TYPED: usize = 80;

// Lends a place at a node to `query`.
fn query_from(image: LentImage, node: u32, label: u8) -> Moved<Option<Answer>>
    ensures { QueryPromise (meant_image image.entry) label (place_at node) result.answer (place_at result.node) }
{
    let mut place = Place { node };
    let answer = query(image.labels, image.values, image.words, &mut place, label);
    Moved {
        answer,
        node: place.node,
    }
}

// Lends a place at a node to `query_until`.
fn query_until_from(image: LentImage, node: u32, text: &[u8]) -> Moved<Result<Answer, usize>>
    ensures { FollowPromise (meant_image image.entry) text.now (place_at node) result.answer (place_at result.node) }
{
    let mut place = Place { node };
    let answer = query_until(image.labels, image.values, image.words, &mut place, text);
    Moved {
        answer,
        node: place.node,
    }
}

// Lends a place at a node to `goto_longest_prefix`.
fn goto_from(image: LentImage, node: u32) -> Moved<Result<usize, usize>>
    ensures { GotoPromise (meant_image image.entry) (place_at node) result.answer (place_at result.node) }
{
    let mut place = Place { node };
    let answer = goto_longest_prefix(image.labels, image.values, image.words, &mut place);
    Moved {
        answer,
        node: place.node,
    }
}

fn tell(rt: &impl Print, answer: Answer) {
    if answer.is_prefix() {
        text(rt, b" prefix");
    }
    if answer.is_match() {
        text(rt, b" match");
    }
}

// What each move answers.
fn queried(rt: &impl Print, answer: Result<Option<Answer>, Refusal>) {
    match answer {
        Ok(Some(found)) => tell(rt, found),
        Ok(None) => text(rt, b" no match"),
        Err(refusal) => number(rt, refusal.number()),
    }
}

fn followed(rt: &impl Print, answer: Result<Result<Answer, usize>, Refusal>) {
    match answer {
        Ok(Ok(found)) => {
            text(rt, b" Ok");
            tell(rt, found);
        }
        Ok(Err(index)) => {
            text(rt, b" Err");
            number(rt, index);
        }
        Err(refusal) => number(rt, refusal.number()),
    }
}

fn gone(rt: &impl Print, answer: Result<Result<usize, usize>, Refusal>) {
    match answer {
        Ok(Ok(distance)) => {
            text(rt, b" Ok");
            number(rt, distance);
        }
        Ok(Err(distance)) => {
            text(rt, b" Err");
            number(rt, distance);
        }
        Err(refusal) => number(rt, refusal.number()),
    }
}

// Makes the move that a line says, and answers the place afterwards.
fn answer(rt: &impl Print, case: Case, image: LentImage) -> u32 {
    let node = case.number;
    match case.letter {
        b'q' => {
            let moved = query_from(image, node, letter(rest(case.line, LABEL)));
            queried(rt, moved.answer);
            moved.node
        }
        b'u' => {
            let moved = query_until_from(image, node, rest(case.line, TYPED));
            followed(rt, moved.answer);
            moved.node
        }
        _ => {
            let moved = goto_from(image, node);
            gone(rt, moved.answer);
            moved.node
        }
    }
}

// What stands in a line from an index on.
fn rest(line: &[u8], from: usize) -> &[u8]
    ensures { result.now ≡ drop from line.now }
{
    part(line, from, line.len())
}

// A line of the list: the name, what the move answers, and the place afterwards.
fn answer_line(rt: &impl Print, line: &[u8]) {
    let mut labels = [0u16; 3];
    let mut values = [0u32; 3];
    let mut words = [0u64; 1];
    store(&mut labels, 0, part(line, LABELS, 12));
    store(&mut values, 0, part(line, VALUES, 24));
    store(&mut words, 0, part(line, WORD, 16));
    let n = hex(part(line, COUNT, 1)) as usize;
    let image = LentImage {
        labels: part(&labels, 0, n),
        values: part(&values, 0, n),
        words: &words,
    };
    text(rt, rest(line, NAME));
    text(rt, b":");
    let node = answer(rt, Case::new(line), image);
    text(rt, b", place");
    number(rt, node);
    text(rt, b"\n");
}

fn replay(rt: &impl Print, list: &[u8]) {
    for piece in list.split_inclusive(|&byte| byte == b'\n') {
        answer_line(rt, line_of(piece));
    }
}

fn main(rt: HostRuntime) {
    text(&rt, b"the root, place");
    number(&rt, Place::ROOT.node);
    text(&rt, b"\n");
    let mut room = [0u8; 4096];
    let n = read_list(&rt, b"cases", &mut room);
    replay(&rt, &room[..n]);
}
