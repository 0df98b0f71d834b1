// The lines of a list and what stands in them: a letter, a space, eight hexadecimal digits, a space, and two digits for
// each byte.
ghost use Rattle.std.specs.Prelude.{◌≡◌, ◌-◌, ◌==◌, if◌then◌else◌, length, get_or, take, drop};
ghost use Rattle.io.specs.Counts.{IsPrefixLen};

use crate::entries::{Entry, hex, store_front};
use crate::parts::part;

// Where the number of a line begins, and where its bytes do.
const NUMBER: usize = 2;

const BYTES: usize = 11;

// What stands in a line. The bytes are still spelled.
#[derive(Clone, Copy)]
pub struct Case<'a> {
    pub line: &'a [u8],
    pub letter: u8,
    pub number: u32,
    pub digits: &'a [u8],
}

impl<'a> Case<'a> {
    pub fn new(line: &'a [u8]) -> Case<'a>
        ensures line { result.line.now ≡ line.now }
        ensures letter { result.letter ≡ get_or line.now 0 0 }
        ensures digits { result.digits.now ≡ drop 11 line.now }
        ensures count { length result.digits.now ≡ length line.now - 11 }
    {
        Case {
            line,
            letter: letter(line),
            number: u32::spelled(part(line, NUMBER, 8)),
            digits: part(line, BYTES, line.len()),
        }
    }

    // The key or query: the line's bytes, or, for the letters that say so, as many of what stands in `out` as the
    // number says. It stands at the start of `out`, and its length is answered.
    pub fn key(self, out: &mut [u8]) -> usize
        ensures { IsPrefixLen result out.new }
    {
        match self.letter {
            b'E' | b'J' | b'Q' => (self.number as usize).min(out.len()),
            _ => store_front(out, self.digits),
        }
    }
}

// A piece of a list without the LF that ends it.
pub fn line_of(piece: &[u8]) -> &[u8]
    ensures { result.now ≡ (if get_or piece.now (length piece.now - 1) 0 == 10
        then take (length piece.now - 1) piece.now else piece.now) }
{
    match piece.split_last() {
        Some((b'\n', line)) => line,
        _ => piece,
    }
}

// The first byte of a line, 0 where it is empty.
pub fn letter(line: &[u8]) -> u8
    ensures { result ≡ get_or line.now 0 0 }
{
    line.first().copied().unwrap_or(0)
}

// The lengths of labels, values, words and scratch, four digits each.
pub fn lengths(digits: &[u8]) -> [usize; 4] {
    let all = hex(part(digits, 0, 16));
    [
        (all >> 48) as usize,
        (all >> 32 & 65535) as usize,
        (all >> 16 & 65535) as usize,
        (all & 65535) as usize,
    ]
}
