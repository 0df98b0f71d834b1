// What `catalogue::answer` says of the texts in `data/cases`, a line for each: where a line has `>` the text has TAB,
// `/` is LF, `A` is 2,048 letters a,
// `F` is the line of key a and value 1 again and again, 65,536 bytes in all, and behind the text of a line with `!` a
// read fails.
// The length of each answer is written, and the answer, of a long one its two ends.
#![tactic(auto)]

ghost use Rattle.std.specs.Prelude.{◌≤◌, length};

use catalogue::reading::{begin, take_read};
use catalogue::{CAPACITY, FILE_ROOM, IMAGE_WORDS, OUT_ROOM, POOL_WORDS, answer};
use lines::answers::Cut;
use replay::lists::read_list;
use replay::printing::text;

const CASES_ROOM: usize = 2048;

// The longest answer that is written whole, and how much of a longer one is written of each end.
const WHOLE: usize = 100;

const END: usize = 24;

// The byte that a case's byte stands for, where `left` are still to come.
fn byte_of(case: u8, left: usize) -> u8 {
    match case {
        b'>' => b'\t',
        b'/' => b'\n',
        b'A' => b'a',
        b'F' => match left % 4 {
            0 => b'a',
            3 => b'\t',
            2 => b'1',
            _ => b'\n',
        },
        _ => case,
    }
}

// Puts what a case's byte stands for at a position, as far as the room goes, and answers where it ends.
fn put(case: u8, from: usize, room: &mut [u8]) -> usize
    requires { from ≤ length room.old }
    ensures { result ≤ length room.new }
{
    let count = match case {
        b'!' => 0,
        b'A' => 2048,
        b'F' => 65536,
        _ => 1,
    };
    for (byte, left) in room[from..].iter_mut().zip((1..=count).rev()) {
        *byte = byte_of(case, left);
    }
    room.len().min(from + count)
}

// Puts the text of a case at the start of the room, as far as it goes, and answers its length.
fn expand(case: &[u8], room: &mut [u8]) -> usize
    ensures { result ≤ length room.new }
{
    let mut at = 0;
    for byte in case {
        at = put(*byte, at, room);
    }
    at
}

fn show(rt: &impl Print, out: &[u8], length: usize) {
    let _ = println!(rt; "{length} bytes");
    if out.len() < length {
        return;
    }
    if length <= WHOLE {
        text(rt, &out[..length]);
        return;
    }
    text(rt, &out[..END]);
    text(rt, b" .. ");
    text(rt, &out[length - END..length]);
}

fn run_cases(
    rt: &impl Print,
    cases: &[u8],
    text: &mut [u8; FILE_ROOM],
    pool: &mut [u32; POOL_WORDS],
    labels: &mut [u16; CAPACITY],
    values: &mut [u32; CAPACITY],
    words: &mut [u64; IMAGE_WORDS],
    scratch: &mut [u32; CAPACITY],
    out: &mut [u8; OUT_ROOM],
) {
    let mut at = 0;
    while let Some(Cut { end, next }) = lines::next_line(cases, at) {
        let case = &cases[at..end];
        let length = expand(case, text);
        let mut reading = begin();
        if length != 0 {
            reading = take_read(reading, Some(length));
        }
        let last = if case.starts_with(b"!") {
            None
        } else {
            Some(0)
        };
        reading = take_read(reading, last);
        let length = answer(reading, text, pool, labels, values, words, scratch, out);
        show(rt, out, length);
        at = next;
    }
}

fn main(rt: HostRuntime) {
    let mut cases = [0u8; CASES_ROOM];
    let length = read_list(&rt, b"cases", &mut cases);
    let mut text = [0u8; FILE_ROOM];
    let mut pool = [0u32; POOL_WORDS];
    let mut labels = [0u16; CAPACITY];
    let mut values = [0u32; CAPACITY];
    let mut words = [0u64; IMAGE_WORDS];
    let mut scratch = [0u32; CAPACITY];
    let mut out = [0u8; OUT_ROOM];
    run_cases(
        &rt,
        &cases[..length],
        &mut text,
        &mut pool,
        &mut labels,
        &mut values,
        &mut words,
        &mut scratch,
        &mut out,
    );
}
