// What is kept from case to case: a place and a cursor.
use trie::place::Place;
use trie::{Cursor, Kind};

#[derive(Clone, Copy)]
pub struct Held {
    pub place: Place,
    pub cursor: Cursor,
}

impl Held {
    // What is held before the first case: no node has the number 0, and the listing is over.
    pub fn new() -> Held {
        Held {
            place: Place { node: 0 },
            cursor: Cursor::finished(Kind::Predictive),
        }
    }
}
