// What the public calls answer.

// Of `tab_line`: the key is the line's first `key_len` bytes.
#[derive(Clone, Copy, Debug, PartialEq, Eq)]
pub struct Parsed {
    pub key_len: usize,
    pub number: u32,
}

// Of `next_line`: the line goes from the position up to, not including, `end`, where its LF or the text's end is; the
// next line begins at `next`.
#[derive(Clone, Copy, Debug, PartialEq, Eq)]
pub struct Cut {
    pub end: usize,
    pub next: usize,
}
