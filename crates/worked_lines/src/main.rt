// Replays two lists of cases and writes the answer to each on a line: `rust_cases`, answered by the Rust, and
// `document_cases`, answered by the scope document.
// tools/oracle/README.md has the letters. The memory that the calls are lent is main's own.
#![tactic(auto)]

mod cursors;
mod held;
mod incremental;
mod queries;
mod spelling;

use held::Held;
use replay::lists::read_lists;
use replay::memory::{LONGEST, Lent, LentImage, Memory};
use replay::printing::byte;
use replay::text::{Case, line_of};
use replay::{images, remember};

// The longest that both lists are.
const LIST_BYTES: usize = 655360;

// The cases that read the image that is lent, and what is held after them.
fn read(rt: &impl Print, case: Case, query: &[u8], image: LentImage, held: Held) -> Held {
    images::look(rt, case.letter, image);
    queries::answer(rt, case, query, image);
    spelling::answer(rt, case, query, image, held);
    Held {
        place: incremental::answer(rt, case, query, image, held.place),
        cursor: cursors::answer(rt, case, query, image, held.cursor),
    }
}

// The cases that search, the one that sets a value, and the one that reads all of the memory.
fn search(rt: &impl Print, case: Case, memory: &mut Memory, held: Held) -> Held {
    let mut space = [b'a'; LONGEST];
    let k = case.key(&mut space);
    let query = &space[..k];
    match case.letter {
        b's' => queries::set_value(rt, case.number, query, memory),
        b'h' => images::look_at(rt, case, memory),
        _ => return read(rt, case, query, memory.image(), held),
    }
    held
}

fn replay(rt: &impl Print, list: &[u8], memory: &mut Memory) {
    let mut held = Held::new();
    for piece in list.split_inclusive(|&byte| byte == b'\n') {
        let case = Case::new(line_of(piece));
        remember(rt, case, memory);
        held = search(rt, case, memory, held);
        byte(rt, b'\n');
    }
}

fn main(rt: HostRuntime) {
    let mut room = [0u8; LIST_BYTES];
    let mut memory = Memory {
        pool: [0; 20500],
        labels: [0; 4100],
        values: [0; 4100],
        words: [0; 130],
        scratch: [0; 4096],
        lent: Lent::default(),
    };
    let n = read_lists(&rt, b"rust_cases", b"document_cases", &mut room);
    replay(&rt, &room[..n], &mut memory);
}
