// Catalogue lines: a line is a key without TAB and LF, one TAB and a decimal number; a text is lines that end at LF.
// One line is read or written, and the next one is cut out of a text; what becomes of the entries is not known here.
// Every call answers for any bytes and any position. A refused write leaves the buffer as it was.
#![tactic(auto)]

pub mod answers;
mod bytes;
mod decimal;
mod writing;

ghost use Rattle.std.specs.Prelude.{◌≡◌};
ghost use Rattle.lines.specs.Answers.{said_parsed, said_cut, said_written};
ghost use Rattle.lines.specs.TabLine.{tab_line_says, tab_line_key};
ghost use Rattle.lines.specs.Text.{next_line_says};
ghost use Rattle.lines.specs.Writing.{write_line_says, write_line_out};

use crate::answers::{Cut, Parsed};
use crate::bytes::{LF, TAB, find};
use crate::decimal::{digit_count, number_in};
use crate::writing::put_line;
use keymap::Refusal;

// Reads a line, which is given without its LF.
pub fn tab_line(line: &[u8]) -> Result<Parsed, Refusal>
    ensures { said_parsed result ≡ tab_line_says line.now }
{
    let tab = find(line, TAB).ok_or(Refusal::BadLine)?;
    if find(&line[..tab], LF).is_some() {
        return Err(Refusal::BadLine);
    }
    let number = number_in(&line[tab + 1..]).ok_or(Refusal::BadLine)?;
    Ok(Parsed {
        key_len: tab,
        number,
    })
}

// The key of a line, empty whenever `tab_line` refuses it.
pub fn tab_line_key(line: &[u8]) -> &[u8]
    ensures key { result.now ≡ tab_line_key line.now }
    ensures leading { result.ref_ptr ≡ line.entry.ref_ptr }
{
    let length = tab_line(line).map_or(0, |entry| entry.key_len);
    &line[..length]
}

// Cuts the line that begins at a position out of a text. There is none at the text's end or past it.
pub fn next_line(text: &[u8], at: usize) -> Option<Cut>
    ensures { said_cut result ≡ next_line_says text.now at }
{
    if text.len() <= at {
        return None;
    }
    let Some(length) = find(&text[at..], LF) else {
        let end = text.len();
        return Some(Cut { end, next: end });
    };
    let end = at + length;
    Some(Cut { end, next: end + 1 })
}

// Writes the line of an entry, with its LF, at the start of the buffer, and answers its length.
pub fn write_line(key: &[u8], number: u32, out: &mut [u8]) -> Result<usize, Refusal>
    ensures answer { said_written result ≡ write_line_says (key.now, number) out.old }
    ensures left { out.new ≡ write_line_out (key.now, number) out.old }
{
    let digits = digit_count(number);
    let length = key.len() + digits + 2;
    if out.len() < length {
        return Err(Refusal::KeyRoom);
    }
    put_line(key, number, digits, out);
    Ok(length)
}
