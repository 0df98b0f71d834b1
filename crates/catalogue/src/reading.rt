// A file read piece by piece into a room of one byte more than the longest that is taken. What each read tells is
// decided here:
// a count of 0 is the file's end, and a room that is full is that of a file which is too long.
ghost use Rattle.std.specs.Prelude.{◌≡◌};
ghost use Rattle.catalogue.specs.Reading.{nothing_read, next_at, take_read};

use crate::sizes::FILE_ROOM;

// How far a file is read. Nothing outside this crate can make one but by the calls below.
#[derive(Clone, Copy)]
pub struct Reading {
    // So many bytes of the file stand at the start of the room.
    pub(crate) done: usize,
    pub(crate) stage: Stage,
}

#[derive(Clone, Copy)]
pub(crate) enum Stage {
    // A further read is wanted.
    Open,
    // The file was read to its end, or until the room was full.
    Whole,
    // It could not be read.
    Failed,
}

// Nothing is read yet.
pub fn begin() -> Reading
    ensures { result ≡ nothing_read }
{
    Reading {
        done: 0,
        stage: Stage::Open,
    }
}

// Where in the room the next read goes: at its end where none is wanted.
pub fn next_at(reading: Reading) -> usize
    ensures { result ≡ next_at reading }
{
    match reading.stage {
        Stage::Open => reading.done,
        Stage::Whole | Stage::Failed => FILE_ROOM,
    }
}

// After a read that gave so many bytes, or failed.
pub fn take_read(reading: Reading, read: Option<usize>) -> Reading
    ensures { result ≡ take_read reading read }
{
    let Stage::Open = reading.stage else {
        return reading;
    };
    let done = reading.done;
    match read {
        None => Reading {
            done,
            stage: Stage::Failed,
        },
        Some(0) => Reading {
            done,
            stage: Stage::Whole,
        },
        Some(more) => {
            let filled = done.saturating_add(more);
            if filled < FILE_ROOM {
                Reading {
                    done: filled,
                    stage: Stage::Open,
                }
            } else {
                Reading {
                    done: FILE_ROOM,
                    stage: Stage::Whole,
                }
            }
        }
    }
}
