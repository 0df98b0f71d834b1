// The numbered refusals, one list for every crate: which call gives which, its contract says.
ghost use Rattle.std.specs.Prelude.{◌≡◌};
ghost use Rattle.keymap.specs.Refusals.{refusal_number};

#[derive(Clone, Copy, Debug, PartialEq, Eq)]
pub enum Refusal {
    // The pool has fewer than 5 words.
    PoolTooSmall = 1,
    // The pool is not sound.
    NotAPool = 2,
    // The pushed key has length 0.
    EmptyKey = 3,
    // Records in use plus the key's prefixes not yet present exceed capacity.
    NoRoom = 4,
    // A buffer of `build` is shorter than needed.
    OutTooSmall = 5,
    // The lent image is no map's image.
    NotAnImage = 6,
    // A place or cursor does not belong to the image, or gives no key.
    BadPlace = 7,
    // A buffer is shorter than the key, prefix or line to be written.
    KeyRoom = 8,
    // A line breaks the line rule.
    BadLine = 9,
}

impl Refusal {
    pub fn number(self) -> u32
        ensures { result ≡ refusal_number self }
    {
        self as u32
    }
}
