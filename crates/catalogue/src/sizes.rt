// The limits of the program, and the lengths of the rooms that it works in.
use records::words::RECORD_WORDS;

// The longest file that is taken.
pub const FILE_LIMIT: usize = 65536;

// One byte more, so that a longer file is seen.
pub const FILE_ROOM: usize = FILE_LIMIT + 1;

// The records besides the root.
pub const CAPACITY: usize = 2048;

// Five words for each record, the root's among them.
pub const POOL_WORDS: usize = RECORD_WORDS * (CAPACITY + 1);

// The words of 2 * CAPACITY + 3 bits.
pub const IMAGE_WORDS: usize = (2 * CAPACITY + 66) / 64;

// A listing is at most one byte longer than its file: the last LF may be absent there.
pub const OUT_ROOM: usize = FILE_LIMIT + 1;
