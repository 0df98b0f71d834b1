// Builds of pools whose images lie at the limits of a word and of the capacity, and builds with a buffer one short or
// one longer than needed:
// what build answers, the four buffers afterwards, and what the image test says of the first three.
//
// The list `cases` has the letters n (these many words are the pool, reset), z (these many words are the pool, as they
// are), w (words stored into its memory) and p (a push), as tools/oracle/README.md has them, which write nothing; and b
// and e, a build: the lengths of labels, values, words and scratch, two bytes each, and a name. After e the last entry
// alone of each buffer is written.
#![tactic(auto)]

ghost use Rattle.std.specs.Prelude.{◌≤◌, length};

use keymap::Refusal;
use replay::entries::store;
use replay::lists::read_list;
use replay::memory::{LONGEST, LentImage};
use replay::parts::part;
use replay::printing::{BAR, byte, number, show, text};
use replay::text::{Case, lengths, line_of};

// Where the lengths begin in a line of a build, and where the name does.
const LENGTHS: usize = 2;

const NAME: usize = 19;

// The most that a build is lent: each record's entries, and the words of their bits with one to spare.
const ENTRIES: usize = 4096;

const WORDS: usize = 129;

// The number of a refusal, 0 where there is none.
fn status<T: Drop>(answer: Result<T, Refusal>) -> u32 {
    answer.err().map_or(0, |refusal| refusal.number())
}

fn built(rt: &impl Print, answer: Result<u32, Refusal>) {
    number(rt, status(answer));
    if let Ok(n) = answer {
        number(rt, n);
    }
}

// The last entry, or nothing of no entries.
fn last<T>(all: &[T]) -> &[T]
    ensures { length result.now ≤ 1 }
{
    part(all, all.len().saturating_sub(1), 1)
}

// The four buffers, each behind a bar.
fn show_all(rt: &impl Print, image: LentImage, scratch: &[u32]) {
    text(rt, BAR);
    show(rt, image.labels);
    text(rt, BAR);
    show(rt, image.values);
    text(rt, BAR);
    show(rt, image.words);
    text(rt, BAR);
    show(rt, scratch);
}

// The last entries alone.
fn show_ends(rt: &impl Print, image: LentImage, scratch: &[u32]) {
    text(rt, BAR);
    show(rt, last(image.labels));
    show(rt, last(image.values));
    show(rt, last(image.words));
    show(rt, last(scratch));
}

// What is written behind the answer of build.
fn told(rt: &impl Print, letter: u8, image: LentImage, scratch: &[u32]) {
    if letter == b'e' {
        show_ends(rt, image, scratch);
    } else {
        show_all(rt, image, scratch);
    }
    text(rt, BAR);
    number(
        rt,
        status(image::accept(image.labels, image.values, image.words)),
    );
    byte(rt, b'\n');
}

// What the buffers hold before: ones in all of their bits, but where the last entries alone are written.
fn filling(letter: u8) -> u64 {
    if letter == b'e' { 9 } else { u64::MAX }
}

// A build into as much of each buffer as the line says.
fn build(
    rt: &impl Print,
    case: Case,
    pool: &[u32],
    labels: &mut [u16],
    values: &mut [u32],
    words: &mut [u64],
    scratch: &mut [u32],
) {
    let [a, b, c, d] = lengths(part(case.line, LENGTHS, 16));
    let a = a.min(labels.len());
    let b = b.min(values.len());
    let c = c.min(words.len());
    let d = d.min(scratch.len());
    let labels = &mut labels[..a];
    let values = &mut values[..b];
    let words = &mut words[..c];
    let scratch = &mut scratch[..d];
    text(rt, part(case.line, NAME, case.line.len()));
    byte(rt, b':');
    built(rt, image::build(pool, labels, values, words, scratch));
    told(
        rt,
        case.letter,
        LentImage {
            labels,
            values,
            words,
        },
        scratch,
    );
}

// A build into buffers that are filled first.
fn build_anew(rt: &impl Print, case: Case, pool: &[u32]) {
    let fill = filling(case.letter);
    let short = (fill % 65536) as u16;
    let middle = (fill % 4294967296) as u32;
    build(
        rt,
        case,
        pool,
        &mut [short; ENTRIES],
        &mut [middle; ENTRIES],
        &mut [fill; WORDS],
        &mut [middle; ENTRIES],
    );
}

// What a push or a reset answers is passed over: the build behind them shows what they left.
fn push(case: Case, pool: &mut [u32]) {
    let mut space = [0u8; LONGEST];
    let n = case.key(&mut space);
    let _ = pool::push(pool, &space[..n], case.number);
}

// A case, with as many words of the memory as are the pool; how many are from then on.
fn answer(rt: &impl Print, case: Case, memory: &mut [u32], words: usize) -> usize {
    let n = case.number as usize;
    let size = match case.letter {
        b'n' | b'z' => n,
        _ => words,
    };
    let p = size.min(memory.len());
    match case.letter {
        b'n' => {
            let _ = pool::reset(&mut memory[..p]);
        }
        b'p' => push(case, &mut memory[..p]),
        b'w' => store(memory, n, case.digits),
        b'b' | b'e' => build_anew(rt, case, &memory[..p]),
        _ => (),
    }
    size
}

fn replay(rt: &impl Print, list: &[u8], memory: &mut [u32]) {
    let mut words = 0;
    for piece in list.split_inclusive(|&byte| byte == b'\n') {
        words = answer(rt, Case::new(line_of(piece)), memory, words);
    }
}

fn main(rt: HostRuntime) {
    let mut room = [0u8; 16384];
    let mut memory = [9u32; 20485];
    let n = read_list(&rt, b"cases", &mut room);
    replay(&rt, &room[..n], &mut memory);
}
