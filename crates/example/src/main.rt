// The library called: two keys are pushed and built, one is matched, both are listed, and the room left is told.
// README.md shows `main` and `list` as they stand here, and what the program writes.
#![tactic(auto)]

use keymap::Refusal;
use trie::Stepped;

// The records besides the root.
const CAPACITY: usize = 24;

fn main(rt: HostRuntime) -> Result<(), Refusal> {
    // All memory is lent: for each record 5 words, and 5 for the root; for each node a label, a value, a scratch word
    // and 2 bits, with 3 more.
    let mut pool = [0u32; 5 * (CAPACITY + 1)];
    let mut labels = [0u16; CAPACITY];
    let mut values = [0u32; CAPACITY];
    let mut words = [0u64; (2 * CAPACITY + 66) / 64];
    let mut scratch = [0u32; CAPACITY];
    pool::reset(&mut pool)?;
    pool::push(&mut pool, b"lobby/left", 7)?;
    pool::push(&mut pool, b"lobby", 12)?;
    let n = image::build(&pool, &mut labels, &mut values, &mut words, &mut scratch)? as usize;
    line(&rt, b"nodes", n);
    let labels = &labels[..n];
    let values = &values[..n];
    let words = &words[..(2 * n + 66) / 64];
    match trie::exact_match(labels, values, words, b"lobby")? {
        Some(value) => line(&rt, b"value", value as usize),
        None => {
            let _ = rt.println("no match");
        }
    }
    list(&rt, labels, values, words, b"lob")?;
    let used = pool::use_count(&pool)? as usize;
    line(&rt, b"left", CAPACITY - used);
    Ok(())
}

// Writes the keys that begin with a query, each with its value. There are no more of them than nodes.
fn list(
    rt: &impl Print,
    labels: &[u16],
    values: &[u32],
    words: &[u64],
    query: &[u8],
) -> Result<(), Refusal> {
    let mut key = [0u8; CAPACITY];
    let mut cursor = trie::predictive_search(labels, values, words, query)?;
    for _ in 0..labels.len() {
        let Stepped::Gave {
            node: _,
            value,
            next,
        } = trie::step(labels, values, words, cursor)?
        else {
            break;
        };
        let length = trie::cursor_key(labels, values, words, next, &mut key)?;
        line(rt, &key[..length], value as usize);
        cursor = next;
    }
    Ok(())
}

// A name, TAB and a number on a line. A write that fails is passed over.
fn line(rt: &impl Print, name: &[u8], n: usize) {
    let _ = rt.write_all(name);
    let _ = println!(rt; "\t{n}");
}
