// Bits in bytes, as a certificate has them: index 8b+c is bit c of byte b.

#![tactic(auto)]

ghost use Rattle.std.specs.Prelude.{◌≡◌, ◌+◌, ◌*◌, ◌^◌, ◌≤◌, ◌<◌, length};
ghost use Rattle.triples.specs.Certificate.{is_set};
ghost use Rattle.bits.specs.Bits.{with_bit};
ghost use Rattle.bits.specs.Windows.{Word, Window, window_end, Columns, LowestOne, ClearTo};

// Is the bit 1?
pub fn is_set(bytes: &[u8], i: usize) -> bool
    requires { i < 8 * length bytes.now }
    ensures { result ≡ is_set bytes.now i }
{
    (bytes[i / 8] >> (i % 8)) % 2 == 1
}

// Makes the bit 1.
pub fn set_bit(bytes: &mut [u8], i: usize)
    requires { i < 8 * length bytes.old }
    ensures { bytes.new ≡ with_bit bytes.old i }
{
    let b = i / 8;
    bytes[b] = bytes[b] | (1u8 << (i % 8));
}

// Eight bytes as one number, the first of them lowest.
fn eight_bytes(bytes: &[u8], b: usize) -> u64
    requires { b + 8 ≤ length bytes.now }
    ensures { Word bytes.now b 8 result }
{
    u64::from_le_bytes([
        bytes[b],
        bytes[b + 1],
        bytes[b + 2],
        bytes[b + 3],
        bytes[b + 4],
        bytes[b + 5],
        bytes[b + 6],
        bytes[b + 7],
    ])
}

// The bits from i on, of eight bytes if there are so many, else of one.
pub fn window(bytes: &[u8], i: usize) -> u64
    requires { i < 8 * length bytes.now }
    ensures { Window bytes.now i (window_end (length bytes.now) i) result }
{
    let b = i / 8;
    if b + 8 <= bytes.len() {
        return eight_bytes(bytes, b) >> (i % 8);
    }
    u64::from(bytes[b]) >> (i % 8)
}

// The bits from i on, of eight bytes: of the last eight where fewer follow.
pub fn wide_window(bytes: &[u8], i: usize) -> u64
    requires { (8 ≤ length bytes.now) × (i < 8 * length bytes.now) }
    ensures { Columns bytes.now i result }
{
    let from = i / 8;
    if from + 8 <= bytes.len() {
        return eight_bytes(bytes, from) >> (i % 8);
    }
    let last = bytes.len() - 8;
    eight_bytes(bytes, last) >> (i - 8 * last)
}

// Where the window from i on ends.
pub fn window_end(bytes: &[u8], i: usize) -> usize
    requires { (i < 8 * length bytes.now) × (i < 2 ^ 32) }
    ensures { result ≡ window_end (length bytes.now) i }
{
    if i / 8 + 8 <= bytes.len() {
        return i / 8 * 8 + 64;
    }
    i / 8 * 8 + 8
}

// Passes over bytes that are 0, eight at a time: the byte before which it stops.
pub fn skip_zeros(bytes: &[u8], from: usize) -> usize
    requires { from ≤ length bytes.now }
    ensures { ClearTo bytes.now from result }
{
    let mut b = from;
    while b + 8 <= bytes.len() {
        if eight_bytes(bytes, b) != 0 {
            return b;
        }
        b += 8;
    }
    b
}

// The place of the lowest 1 of a number that is not 0.
pub fn lowest_one(w: u64) -> usize
    requires { 0 < w }
    ensures { LowestOne w result }
{
    u64::trailing_zeros(w) as usize
}
