// What the program writes of a file: the listing of its entries, or why there is none.
// The rooms that the call works in are lent, each of the one length that its type says, so that none is too short.
#![tactic(auto)]

mod filling;
mod listing;
mod putting;
pub mod reading;
mod sizes;

ghost use Rattle.std.specs.Prelude.{◌≡◌, length};
ghost use Rattle.keymap.specs.Buffers.{over};
ghost use Rattle.image.specs.Build.{build_labels, build_values, build_words, build_scratch, of_lent};
ghost use Rattle.catalogue.specs.Reading.{what_read};
ghost use Rattle.catalogue.specs.Program.{program_text};
ghost use Rattle.catalogue.specs.Rooms.{program_pool, built_from};

use crate::filling::fill;
use crate::listing::list_pool;
use crate::putting::{put_refused, put_text};
use crate::reading::{Reading, Stage};
pub use sizes::{CAPACITY, FILE_LIMIT, FILE_ROOM, IMAGE_WORDS, OUT_ROOM, POOL_WORDS};

// Puts what the program writes of a file at the start of `out` and answers how many bytes that is. The file's bytes
// stand at the start of `text`.
pub fn answer(
    reading: Reading,
    text: &[u8; FILE_ROOM],
    pool: &mut [u32; POOL_WORDS],
    labels: &mut [u16; CAPACITY],
    values: &mut [u32; CAPACITY],
    words: &mut [u64; IMAGE_WORDS],
    scratch: &mut [u32; CAPACITY],
    out: &mut [u8; OUT_ROOM],
) -> usize
    ensures answer { result ≡ length (program_text (what_read reading text.now)) }
    ensures out { out.new ≡ over (program_text (what_read reading text.now)) out.old }
    ensures pool { pool.new ≡ program_pool (what_read reading text.now) pool.old }
    ensures labels { labels.new ≡ of_lent (build_labels (built_from reading text pool)) labels values words scratch }
    ensures values { values.new ≡ of_lent (build_values (built_from reading text pool)) labels values words scratch }
    ensures words { words.new ≡ of_lent (build_words (built_from reading text pool)) labels values words scratch }
    ensures scratch { scratch.new ≡ of_lent (build_scratch (built_from reading text pool)) labels values words scratch }
{
    let Stage::Whole = reading.stage else {
        return put_text(b"no file\n", 0, out);
    };
    let length = reading.done;
    if FILE_LIMIT < length {
        return put_text(b"too long\n", 0, out);
    }
    match fill(&text[..length], pool) {
        Ok(()) => list_pool(pool, labels, values, words, scratch, out),
        Err(refused) => put_refused(refused.refusal.number(), refused.line, out),
    }
}
