// The cases of the memory of images: build, what is lent as an image, and what stands in the memory.
use crate::entries::{hex, store_last};
use crate::memory::{LentImage, Memory};
use crate::parts::part;
use crate::printing::{
    ACCEPTED, LABELS, SCRATCH, VALUES, WORDS, accepted, done, number, show, text,
};
use crate::text::{Case, lengths};

// A build into as much of each buffer as the digits say, or into all of it where there are none. What was built is lent
// from then on; of a refusal, nothing.
fn build(rt: &impl Print, digits: &[u8], memory: &mut Memory) {
    let pool = part(&memory.pool, 0, memory.lent.pool);
    let labels = &mut memory.labels[..];
    let values = &mut memory.values[..];
    let words = &mut memory.words[..];
    let scratch = &mut memory.scratch[..];
    let [a, b, c, d] = if digits.is_empty() {
        [usize::MAX; 4]
    } else {
        lengths(digits)
    };
    let a = a.min(labels.len());
    let b = b.min(values.len());
    let c = c.min(words.len());
    let d = d.min(scratch.len());
    let answer = image::build(
        pool,
        &mut labels[..a],
        &mut values[..b],
        &mut words[..c],
        &mut scratch[..d],
    );
    if let Some(nodes) = accepted(rt, answer) {
        number(rt, nodes);
        memory.lent.labels = nodes as usize;
        memory.lent.values = nodes as usize;
        memory.lent.words = image::words_for(nodes);
    }
}

// The answer to a case that writes an image's memory; no other writes anything.
pub fn answer(rt: &impl Print, case: Case, memory: &mut Memory) {
    let n = case.number;
    match case.letter {
        b'b' => build(rt, case.digits, memory),
        b'L' => {
            memory.lent.labels = n as usize;
            store_last(&mut memory.labels, n, case.digits);
            number(rt, n);
        }
        b'V' => {
            memory.lent.values = n as usize;
            store_last(&mut memory.values, n, case.digits);
            number(rt, n);
        }
        b'B' => {
            memory.lent.words = n as usize;
            store_last(&mut memory.words, n, case.digits);
            number(rt, n);
        }
        _ => (),
    }
}

fn show_image(rt: &impl Print, image: LentImage) {
    text(rt, LABELS);
    show(rt, image.labels);
    text(rt, VALUES);
    show(rt, image.values);
    text(rt, WORDS);
    show(rt, image.words);
}

// What stands in the memory of an image, lent or not: so many entries of each, from an index on.
pub fn look_at(rt: &impl Print, case: Case, memory: &Memory) {
    let from = case.number as usize;
    let count = hex(part(case.digits, 0, 2)) as usize;
    show_image(
        rt,
        LentImage {
            labels: part(&memory.labels, from, count),
            values: part(&memory.values, from, count),
            words: part(&memory.words, from, count),
        },
    );
    text(rt, SCRATCH);
    show(rt, part(&memory.scratch, from, count));
}

// The cases that read the image that is lent.
pub fn look(rt: &impl Print, letter: u8, image: LentImage) {
    match letter {
        b'i' => show_image(rt, image),
        b'A' => done(
            rt,
            ACCEPTED,
            image::accept(image.labels, image.values, image.words),
        ),
        _ => (),
    }
}
