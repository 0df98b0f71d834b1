// Reading lists of cases.
ghost use Rattle.io.specs.Counts.{IsPrefixLen};

use std::fs::File;
use std::io::Read;
use std::rt::Files;

// A list into the front of the room, and how long it is. One that cannot be opened is told of and is empty, as is one
// whose name is no text: std opens no such file.
pub fn read_list<R: Files + Eprint>(rt: &R, name: &[u8], room: &mut [u8]) -> usize
    ensures { IsPrefixLen result room.new }
{
    match str::from_utf8(name) {
        Ok(path) => read_path(rt, path, room),
        Err(why) => {
            let _ = eprintln!(rt; "{why}");
            0
        }
    }
}

fn read_path<R: Files + Eprint>(rt: &R, path: &str, room: &mut [u8]) -> usize
    ensures { IsPrefixLen result room.new }
{
    match File::open(rt, path) {
        Ok(mut file) => read_full(&mut file, room),
        Err(why) => {
            let _ = eprintln!(rt; "{path}: {why}");
            0
        }
    }
}

// Reads until the room is full, the file ends or a read fails, and answers how many bytes stand in the room. Of these
// `read_exact` tells nothing, and `read_to_end` asks for a heap.
fn read_full(file: &mut impl Read, room: &mut [u8]) -> usize
    ensures { IsPrefixLen result room.new }
{
    let mut done = 0;
    while done < room.len() {
        let Ok(more) = file.read(&mut room[done..]) else {
            break;
        };
        if more == 0 {
            break;
        }
        done += more;
    }
    done
}

// Two lists, one behind the other.
pub fn read_lists<R: Files + Eprint>(rt: &R, one: &[u8], other: &[u8], room: &mut [u8]) -> usize
    ensures { IsPrefixLen result room.new }
{
    let first = read_list(rt, one, room);
    let second = read_list(rt, other, &mut room[first..]);
    first + second
}
