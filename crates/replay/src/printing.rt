// What an answer is written with: words, numbers in decimal and bytes in hexadecimal, each with a space before it.
// A write that fails is passed over: what comes behind it is written all the same.
ghost use Rattle.std.specs.Prelude.{◌≡◌, None, MatchOption};
ghost use Rattle.std.specs.Result.{result_ok};

use crate::text::Case;
use keymap::Refusal;
use std::fmt::Display;

pub const REFUSED: &[u8] = b" refused";

pub const DONE: &[u8] = b" done";

pub const LABELS: &[u8] = b" labels";

pub const VALUES: &[u8] = b" values";

pub const WORDS: &[u8] = b" words";

pub const SCRATCH: &[u8] = b" scratch";

pub const ACCEPTED: &[u8] = b" accepted";

pub const NONE: &[u8] = b" none";

pub const YES: &[u8] = b" yes";

pub const NO: &[u8] = b" no";

pub const BAR: &[u8] = b" |";

pub const END: &[u8] = b" end";

pub const TOP: &[u8] = b" top";

pub const LAST: &[u8] = b" last";

pub const FINISHED: &[u8] = b" finished";

pub const AT: &[u8] = b" at";

pub const PREFIX: &[u8] = b" prefix";

pub const MATCH: &[u8] = b" match";

pub const BOTH: &[u8] = b" both";

pub const OK: &[u8] = b" ok";

pub const ERR: &[u8] = b" err";

pub fn text(rt: &impl Print, bytes: &[u8]) {
    let _ = rt.write_all(bytes);
}

pub fn byte(rt: &impl Print, b: u8) {
    text(rt, &[b]);
}

pub fn number<N: Display + Drop>(rt: &impl Print, n: N) {
    let _ = print!(rt; " {n}");
}

pub fn show<T: Display>(rt: &impl Print, all: &[T]) {
    for entry in all {
        number(rt, entry);
    }
}

pub fn refused(rt: &impl Print, refusal: Refusal) {
    text(rt, REFUSED);
    number(rt, refusal.number());
}

// What a call answered; a refusal is written instead.
pub fn accepted<T>(rt: &impl Print, answer: Result<T, Refusal>) -> Option<T>
    ensures { result ≡ result_ok answer }
{
    match answer {
        Ok(value) => Some(value),
        Err(refusal) => {
            refused(rt, refusal);
            None
        }
    }
}

// Writes the number that a call found, or `none`, and answers it.
pub fn found<N: Display + Copy>(rt: &impl Print, answer: Result<Option<N>, Refusal>) -> Option<N>
    ensures { MatchOption (result_ok answer) (result ≡ None) (λ found. result ≡ found) }
{
    match accepted(rt, answer)? {
        Some(n) => {
            number(rt, n);
            Some(n)
        }
        None => {
            text(rt, NONE);
            None
        }
    }
}

// What begins an answer: the letter of the case. A title is written as it stands.
pub fn head(rt: &impl Print, case: Case) {
    if case.letter == b'#' {
        text(rt, case.line);
    } else {
        byte(rt, case.letter);
    }
}

// The word of a call that is done.
pub fn done(rt: &impl Print, word: &[u8], answer: Result<(), Refusal>) {
    if accepted(rt, answer).is_some() {
        text(rt, word);
    }
}

// Nothing where there are no bytes.
pub fn bytes(rt: &impl Print, all: &[u8]) {
    if all.is_empty() {
        return;
    }
    byte(rt, b' ');
    for b in all {
        let _ = print!(rt; "{b:02x}");
    }
}
