// Texts put into a buffer, one behind the other.
ghost use Rattle.std.specs.Prelude.{◌≡◌, ◌+◌, ◌≤◌, [], ◌++◌, length, take, drop};
ghost use Rattle.keymap.specs.Buffers.{over};
ghost use Rattle.lines.specs.Decimal.{decimal};
ghost use Rattle.lines.specs.Writing.{tab_text};
ghost use Rattle.catalogue.specs.Program.{refused_text};

// Puts the text of a refusal at the start and answers its length.
pub fn put_refused(number: u32, line: usize, out: &mut [u8]) -> usize
    requires { length (refused_text number line) ≤ length out.old }
    ensures answer { result ≡ length (refused_text number line) }
    ensures left { out.new ≡ over (refused_text number line) out.old }
{
    let word = put_text(b"refused ", 0, out);
    let numbered = put_number(number as u64, word, out);
    let lined = put_text(b" line ", numbered, out);
    let whole = put_number(line as u64, lined, out);
    put_text(b"\n", whole, out)
}

// Puts what stands behind the key in the line of an entry at a position and answers where it ends: the line of the
// empty key.
pub fn put_value(value: u32, at: usize, out: &mut [u8]) -> usize
    requires { at + length (tab_text ([], value)) ≤ length out.old }
    ensures answer { result ≡ at + length (tab_text ([], value)) }
    ensures left { out.new ≡ take at out.old ++ over (tab_text ([], value)) (drop at out.old) }
{
    at + lines::write_line(b"", value, &mut out[at..]).unwrap()
}

// Puts the digits of a number at a position and answers where they end.
// `lines` puts digits too, those of an entry's number of 32 bits. It stays a function beside it: a line's number is a
// usize, and for it `lines` would have to open a public call of any number, with a promise that nobody else asks for.
fn put_number(number: u64, at: usize, out: &mut [u8]) -> usize
    requires { at + length (decimal number) ≤ length out.old }
    ensures answer { result ≡ at + length (decimal number) }
    ensures left { out.new ≡ take at out.old ++ over (decimal number) (drop at out.old) }
{
    let mut digits = [0u8; 20];
    let count = io::decimal(number, &mut digits);
    put_text(&digits[..count], at, out)
}

// Puts all bytes of a text at a position and answers where they end.
pub fn put_text(text: &[u8], at: usize, out: &mut [u8]) -> usize
    requires { at + length text.now ≤ length out.old }
    ensures answer { result ≡ at + length text.now }
    ensures left { out.new ≡ take at out.old ++ over text.now (drop at out.old) }
{
    let end = at + text.len();
    out[at..end].copy_from_slice(text);
    end
}
