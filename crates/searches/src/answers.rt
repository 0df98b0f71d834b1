// What the searches answer besides values and lengths.

// The shortest key that is a prefix of a query and longer than what was seen.
#[derive(Clone, Copy, Debug, PartialEq, Eq)]
pub struct Common {
    pub length: usize,
    pub value: u32,
}
