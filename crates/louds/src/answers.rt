// What the calls answer. A bit that is not there, or a node that is none, is answered by None.

// The children of a node: they are numbered on from `first`, and there are `count` of them, maybe none.
#[derive(Clone, Copy, Debug, PartialEq, Eq)]
pub struct Children {
    pub first: usize,
    pub count: usize,
}
