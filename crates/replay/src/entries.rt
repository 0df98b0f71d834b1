// The entries of the lent memory and the bytes of keys: what digits spell, and storing it.
ghost use Rattle.std.specs.Prelude.{◌≡◌, ◌<◌, ◌≤◌, ◌-◌, length, take};

// The value of a digit; of any other byte, no matter what, where `char::to_digit` has none to shift in.
fn digit(glyph: u8) -> u64 {
    match glyph {
        b'a'.. => (glyph - 87) as u64,
        b'0'.. => (glyph - b'0') as u64,
        _ => 0,
    }
}

// The number that digits spell.
pub fn hex(digits: &[u8]) -> u64 {
    digits.iter().fold(0, |n, &glyph| n << 4 | digit(glyph))
}

// What digits of a line spell.
pub trait Entry: Copy {
    // How many digits spell one.
    fn digits() -> usize
        ensures { 0 < result };

    // What the last of the digits spell, as many as one has.
    fn spelled(digits: &[u8]) -> Self;
}

impl Entry for u8 {
    fn digits() -> usize
        ensures { result ≡ 2 }
    {
        2
    }

    fn spelled(digits: &[u8]) -> u8 {
        (hex(digits) % 256) as u8
    }
}

impl Entry for u16 {
    fn digits() -> usize
        ensures { result ≡ 4 }
    {
        4
    }

    fn spelled(digits: &[u8]) -> u16 {
        (hex(digits) % 65536) as u16
    }
}

impl Entry for u32 {
    fn digits() -> usize
        ensures { result ≡ 8 }
    {
        8
    }

    fn spelled(digits: &[u8]) -> u32 {
        (hex(digits) % 4294967296) as u32
    }
}

impl Entry for u64 {
    fn digits() -> usize
        ensures { result ≡ 16 }
    {
        16
    }

    fn spelled(digits: &[u8]) -> u64 {
        hex(digits)
    }
}

// Stores what the digits spell from an index on, as far as there is room.
pub fn store<T: Entry>(all: &mut [T], from: usize, digits: &[u8]) {
    let places = all.iter_mut().skip(from);
    for (place, spelled) in places.zip(digits.chunks(T::digits())) {
        *place = T::spelled(spelled);
    }
}

// Where the last entries begin, of so many.
fn start_of(count: u32, last: usize) -> usize
    ensures { result ≡ count - last }
{
    (count as usize).saturating_sub(last)
}

// Stores what the digits spell as the last of so many entries.
pub fn store_last<T: Entry>(all: &mut [T], count: u32, digits: &[u8]) {
    let spelled = digits.len() / T::digits();
    store(all, start_of(count, spelled), digits);
}

// Puts what the digits spell at the start, as far as there is room, and answers how many entries that is.
pub fn store_front<T: Entry>(all: &mut [T], digits: &[u8]) -> usize
    ensures within { result ≤ length all.new }
    ensures front { result ≡ length (take result all.new) }
{
    store(all, 0, digits);
    digits.len().div_ceil(T::digits()).min(all.len())
}
