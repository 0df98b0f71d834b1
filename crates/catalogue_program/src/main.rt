// Reads `catalogue.tsv` and writes what `catalogue::answer` says of it. The rooms that the calls are lent are main's
// own.
#![tactic(auto)]

ghost use Rattle.std.specs.Prelude.{◌≡◌, length};
ghost use Rattle.catalogue.specs.Reading.{file_room, Finished, what_read};
ghost use Rattle.catalogue.specs.Program.{program_text};

use catalogue::reading::{Reading, begin, next_at, take_read};
use catalogue::{CAPACITY, FILE_ROOM, IMAGE_WORDS, OUT_ROOM, POOL_WORDS, answer};
use std::fs::File;
use std::io::Read;
use std::rt::Files;

// Reads a file into the room until no read is wanted any more. One that cannot be opened is as one whose first read
// fails.
fn read_file(rt: &impl Files, name: &str, room: &mut [u8]) -> Reading
    requires { length room.old ≡ file_room }
    ensures { Finished result }
{
    match File::open(rt, name) {
        Ok(mut file) => read_all(&mut file, room),
        Err(_) => take_read(begin(), None),
    }
}

// The same of a file that is open.
fn read_all(file: &mut impl Read, room: &mut [u8]) -> Reading
    requires { length room.old ≡ file_room }
    ensures { Finished result }
{
    let mut reading = begin();
    let mut at = next_at(reading);
    while at < FILE_ROOM {
        reading = take_read(reading, file.read(&mut room[at..]).ok());
        at = next_at(reading);
    }
    reading
}

// Writes what is to be written of a file that was read. The reading and its room are there for the contract: no other
// bytes are handed over. A write that fails ends the program, and it ends well.
fn say(rt: &impl Print, reading: Reading, text: &[u8], told: &[u8])
    requires finished { Finished reading }
    requires whole { told.now ≡ program_text (what_read reading text.now) }
{
    let _ = rt.write_all(told);
}

fn main(rt: HostRuntime) {
    let mut text = [0u8; FILE_ROOM];
    let reading = read_file(&rt, "catalogue.tsv", &mut text);
    let mut pool = [0u32; POOL_WORDS];
    let mut labels = [0u16; CAPACITY];
    let mut values = [0u32; CAPACITY];
    let mut words = [0u64; IMAGE_WORDS];
    let mut scratch = [0u32; CAPACITY];
    let mut out = [0u8; OUT_ROOM];
    let length = answer(
        reading,
        &text,
        &mut pool,
        &mut labels,
        &mut values,
        &mut words,
        &mut scratch,
        &mut out,
    );
    say(&rt, reading, &text, &out[..length]);
}
