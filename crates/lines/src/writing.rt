// The text of one entry, put into a buffer that is long enough.
ghost use Rattle.std.specs.Prelude.{◌≡◌, ◌+◌, ◌≤◌, length};
ghost use Rattle.keymap.specs.Buffers.{over};
ghost use Rattle.lines.specs.Decimal.{decimal};
ghost use Rattle.lines.specs.Writing.{tab_text};

use crate::bytes::{LF, TAB};
use crate::decimal::put_decimal;

// `digits` is how many digits the number has.
pub fn put_line(key: &[u8], number: u32, digits: usize, out: &mut [u8])
    requires counted { digits ≡ length (decimal number) }
    requires room { length key.now + digits + 2 ≤ length out.old }
    ensures { out.new ≡ over (tab_text (key.now, number)) out.old }
{
    let tab = key.len();
    let end = tab + 1 + digits;
    out[..tab].copy_from_slice(key);
    out[tab] = TAB;
    put_decimal(number, digits, &mut out[tab + 1..end]);
    out[end] = LF;
}
