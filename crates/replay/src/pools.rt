// The cases of pools. A list asks for no more words than there are.
use crate::entries::{Entry, hex, store};
use crate::memory::{LONGEST, Memory};
use crate::parts::part;
use crate::printing::{DONE, done, found, number, show};
use crate::text::Case;

// The calls on the pool that is lent.
fn call(rt: &impl Print, case: Case, key: &[u8], pool: &mut [u32]) {
    match case.letter {
        b'n' => done(rt, DONE, pool::reset(pool)),
        b'p' | b'Q' => done(rt, DONE, pool::push(pool, key, case.number)),
        b'u' => {
            found(rt, pool::use_count(pool).map(Some));
        }
        _ => (),
    }
}

// The answer to a case that is a pool's; no other writes anything.
pub fn answer(rt: &impl Print, case: Case, memory: &mut Memory) {
    let n = case.number as usize;
    if case.letter == b'n' || case.letter == b'z' {
        memory.lent.pool = n;
    }
    let mut space = [b'a'; LONGEST];
    let k = case.key(&mut space);
    let words = memory.lent.pool.min(memory.pool.len());
    call(rt, case, &space[..k], &mut memory.pool[..words]);
    match case.letter {
        b'w' => {
            store(&mut memory.pool, n, case.digits);
            number(rt, case.digits.len() / u32::digits());
        }
        b'd' => show(
            rt,
            part(&memory.pool, n, hex(part(case.digits, 0, 2)) as usize),
        ),
        b'z' => number(rt, n),
        _ => (),
    }
}
