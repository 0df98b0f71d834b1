// The lent memory, and how much of it is lent.
ghost use Rattle.std.specs.Prelude.{◌≡◌, take};

use crate::parts::part;

// More than any key has.
pub const LONGEST: usize = 4200;

// How much of the memory is lent as the pool, and as the image.
#[derive(Clone, Copy, Default)]
pub struct Lent {
    pub pool: usize,
    pub labels: usize,
    pub values: usize,
    pub words: usize,
}

// The image that is lent.
#[derive(Clone, Copy)]
pub struct LentImage<'a> {
    pub labels: &'a [u16],
    pub values: &'a [u32],
    pub words: &'a [u64],
}

// The memory that the calls are lent.
#[derive(Drop)]
pub struct Memory {
    pub pool: [u32; 20500],
    pub labels: [u16; 4100],
    pub values: [u32; 4100],
    pub words: [u64; 130],
    pub scratch: [u32; 4096],
    pub lent: Lent,
}

impl Memory {
    pub fn image(&self) -> LentImage<'_>
        ensures labels { result.labels.now ≡ take self.now.lent.labels self.now.labels }
        ensures values { result.values.now ≡ take self.now.lent.values self.now.values }
        ensures words { result.words.now ≡ take self.now.lent.words self.now.words }
    {
        LentImage {
            labels: part(&self.labels, 0, self.lent.labels),
            values: part(&self.values, 0, self.lent.values),
            words: part(&self.words, 0, self.lent.words),
        }
    }
}
