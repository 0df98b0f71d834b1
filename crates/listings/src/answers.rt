// What the listings are asked with and answer.
ghost use Rattle.std.specs.Prelude.{◌≡◌};
ghost use Rattle.listings.specs.declared.answers.Cursor.TheVariants.{Open, Finished};

// Which keys a listing gives: those that begin with the query, or those that are longer besides.
#[derive(Clone, Copy, Debug, PartialEq, Eq)]
pub enum Kind {
    Predictive,
    Postfix,
}

// Where a listing stands.
#[derive(Clone, Copy, Debug, PartialEq, Eq)]
pub enum Cursor {
    // Below the node `top`; `last` is the node given last, 0 before the first step: a cursor is numbers alone, which a
    // caller can keep.
    Open { kind: Kind, top: u32, last: u32 },
    Finished { kind: Kind },
}

impl Cursor {
    // A fresh cursor over the keys of a node's set: any number may be handed in, and the calls refuse those that are no
    // node's.
    pub fn top(kind: Kind, node: u32) -> Cursor
        ensures { result ≡ Open kind node 0 }
    {
        Cursor::Open {
            kind,
            top: node,
            last: 0,
        }
    }

    pub fn finished(kind: Kind) -> Cursor
        ensures { result ≡ Finished kind }
    {
        Cursor::Finished { kind }
    }
}

// A step of a listing. Both cases hand back a cursor, so it is no Option.
#[derive(Clone, Copy, Debug, PartialEq, Eq)]
pub enum Stepped {
    // The least key of the set above the last one given: its node and value, and the cursor to go on with.
    Gave { node: u32, value: u32, next: Cursor },
    // There is none: the cursor is finished.
    End { next: Cursor },
}
