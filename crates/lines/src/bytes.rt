// The bytes that a tab text is cut at, and the search of a byte.
ghost use Rattle.std.specs.Prelude.{◌≡◌, ◌==◌, position};

pub const TAB: u8 = b'\t';

pub const LF: u8 = b'\n';

// Where `b` stands first.
pub fn find(text: &[u8], b: u8) -> Option<usize>
    ensures { result ≡ position (λ a. a == b) text.now }
{
    text.iter().position(|a| *a == b)
}
