// A place, and what the calls on it answer.
ghost use Rattle.std.specs.Prelude.{◌≡◌};
ghost use Rattle.places.specs.Incremental.{tells_prefix, tells_match, place_at};

use keymap::Refusal;

// Where a search stands: a node's number, from 1 to n+1.
#[derive(Clone, Copy, Debug, PartialEq, Eq)]
pub struct Place {
    pub node: u32,
}

impl Place {
    pub const ROOT: Place = Place { node: 1 };

    // The root place, with a promise: a constant has none, so that without this nothing would say which number it has.
    pub fn root() -> Place
        ensures answer { result ≡ place_at 1 }
        ensures constant { Place.ROOT.node ≡ 1 }
    {
        Place::ROOT
    }
}

// What a path is: a prefix of longer keys, a key, or both.
#[derive(Clone, Copy, Debug, PartialEq, Eq)]
pub enum Answer {
    Prefix,
    Match,
    PrefixAndMatch,
}

impl Answer {
    pub fn is_prefix(self) -> bool
        ensures { result ≡ tells_prefix self }
    {
        matches!(self, Answer::Prefix | Answer::PrefixAndMatch)
    }

    pub fn is_match(self) -> bool
        ensures { result ≡ tells_match self }
    {
        matches!(self, Answer::Match | Answer::PrefixAndMatch)
    }
}

// What a move answers, and the node where it leaves the place: where the place was, if it refuses.
#[derive(Clone, Copy, Debug, PartialEq, Eq)]
pub struct Moved<T> {
    pub answer: Result<T, Refusal>,
    pub node: u32,
}
