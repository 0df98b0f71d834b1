// What `stands::kids` answers. It stands apart from that function, since no two names of a module may differ only in
// case.

// The children of a node. A stand that cannot be one has 0 of them, from 0 on, at the end of the bits; no child has the
// number 0, so a step down ends there.
#[derive(Clone, Copy)]
pub struct Kids {
    pub first: usize,
    pub count: usize,
    // Where the zero behind them is, or the end of the bits.
    pub next: usize,
}
