// Numbers as the bytes of a tape, in both variants. What tells the variants apart is `tag` and `spot`.
#![tactic(auto)]

ghost use Rattle.std.specs.Prelude.{◌≡◌, ◌≤◌, ◌<◌, length};
ghost use Rattle.tapes_numbers.specs.Numbers.{tag_of, spot_of, number_of, bytes_of};

#[derive(Clone, Copy, PartialEq, Eq)]
pub enum Variant {
    BigEndian,
    LittleEndian,
}

// "in the second the tag has 128 added"
pub fn tag(v: Variant, n: u8) -> u8
    requires { n < 128 }
    ensures { result ≡ tag_of v n }
{
    match v {
        Variant::BigEndian => n,
        Variant::LittleEndian => n + 128,
    }
}

// Where the i-th of so many digits stands, the lowest being the 0-th.
fn spot(v: Variant, count: usize, i: usize) -> usize
    requires { i < count }
    ensures { result ≡ spot_of v count i }
{
    match v {
        Variant::BigEndian => count - 1 - i,
        Variant::LittleEndian => i,
    }
}

// The number that these bytes are.
pub fn number(bytes: &[u8], v: Variant) -> u64
    requires { length bytes.now ≤ 8 }
    ensures { result ≡ number_of v bytes.now }
{
    let count = bytes.len();
    let mut n = 0;
    for i in (0..count).rev() {
        n = n * 256 + u64::from(bytes[spot(v, count, i)]);
    }
    n
}

// The number in as many bytes as the buffer has.
pub fn put_number(buffer: &mut [u8], n: u64, v: Variant)
    ensures { buffer.new ≡ bytes_of v (length buffer.old) n }
{
    let count = buffer.len();
    let mut rest = n;
    for i in 0..count {
        buffer[spot(v, count, i)] = (rest % 256) as u8;
        rest /= 256;
    }
}
