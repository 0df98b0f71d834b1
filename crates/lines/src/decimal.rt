// Numbers as decimal text, read and written.
ghost use Rattle.std.specs.Prelude.{◌≡◌, ◌≤◌, length};
ghost use Rattle.keymap.specs.Buffers.{over};
ghost use Rattle.lines.specs.Decimal.{most_digits, decimal, leading_zero, number_in};
ghost use Rattle.lines.specs.Numerals.{digits_in};

pub const MOST_DIGITS: usize = 10;

// The number that a text spells, if it obeys the rule for numbers.
pub fn number_in(text: &[u8]) -> Option<u32>
    ensures { result ≡ number_in text.now }
{
    if text.is_empty() {
        return None;
    }
    if MOST_DIGITS < text.len() {
        return None;
    }
    if leads_with_zero(text) {
        return None;
    }
    let value = digits_in(text)?;
    u32::try_from(value).ok()
}

fn leads_with_zero(text: &[u8]) -> bool
    ensures { result ≡ leading_zero text.now }
{
    1 < text.len() && text[0] == b'0'
}

// What digits stand for, unless a byte is none. Ten digits at most, so that their value fits.
fn digits_in(text: &[u8]) -> Option<u64>
    requires { length text.now ≤ most_digits }
    ensures { result ≡ digits_in text.now }
{
    let mut value = 0;
    for b in text {
        if !b.is_ascii_digit() {
            return None;
        }
        value = value * 10 + u64::from(b - b'0');
    }
    Some(value)
}

pub fn digit_count(number: u32) -> usize
    ensures { result ≡ length (decimal number) }
{
    number.max(1).ilog10() as usize + 1
}

// Puts the `count` digits of a number at the start of a buffer that has room; what stands behind them stays.
pub fn put_decimal(number: u32, count: usize, out: &mut [u8])
    requires counted { count ≡ length (decimal number) }
    requires room { count ≤ length out.old }
    ensures { out.new ≡ over (decimal number) out.old }
{
    let mut rest = number;
    for i in (0..count).rev() {
        out[i] = b'0' + (rest % 10) as u8;
        rest /= 10;
    }
}
