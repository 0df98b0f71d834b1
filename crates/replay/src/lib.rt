// What the case programs share: the lines of a list of cases, the memory that the calls are lent, how an answer is
// written, and the cases of pools and of the memory of images. tools/oracle/README.md has the letters.
#![tactic(auto)]

pub mod entries;
pub mod images;
pub mod lists;
pub mod memory;
pub mod parts;
pub mod pools;
pub mod printing;
pub mod text;

use memory::Memory;
use printing::head;
use text::Case;

// The cases of pools and of the memory of images, and what begins the answer to any.
pub fn remember(rt: &impl Print, case: Case, memory: &mut Memory) {
    head(rt, case);
    pools::answer(rt, case, memory);
    images::answer(rt, case, memory);
}
