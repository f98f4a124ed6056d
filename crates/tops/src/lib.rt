// Bits in the top bytes of a row of 32-bit entries, whose lower 24 bits hold places.

#![tactic(auto)]

ghost use Rattle.std.specs.Prelude.{◌≡◌, ◌+◌, ◌*◌, ◌<◌, length, get_or, set};
ghost use Rattle.triples.specs.Certificate.{is_set};
ghost use Rattle.bits.specs.Bits.{with_bit};
ghost use Rattle.tops.specs.Tops.{place_unit, top, tops, lows};

// Places are below this.
const PLACES: u32 = 16777216;

// Is the bit 1?
pub fn is_marked(row: &[u32], i: usize) -> bool
    requires { i < 8 * length row.now }
    ensures { result ≡ is_set (tops row.now) i }
{
    (row[i / 8] >> 24 >> (i % 8)) % 2 == 1
}

// Makes the bit 1.
pub fn mark(row: &mut [u32], i: usize)
    requires { i < 8 * length row.old }
    ensures bits { tops row.new ≡ with_bit (tops row.old) i }
    ensures places { lows row.new ≡ lows row.old }
{
    let b = i / 8;
    row[b] = row[b] | (1u32 << (24 + i % 8));
}

// The top byte of an entry.
pub fn top_of(x: u32) -> u8
    ensures { result ≡ top x }
{
    (x / PLACES) as u8
}

// An entry's top byte with another place.
fn with_place(x: u32, place: usize) -> u32
    requires { place < place_unit }
    ensures { result ≡ top x * place_unit + place }
{
    x / PLACES * PLACES + place as u32
}

// Writes a place.
pub fn put_place(row: &mut [u32], k: usize, place: usize)
    requires { (k < length row.old) × (place < place_unit) }
    ensures bits { tops row.new ≡ tops row.old }
    ensures places { lows row.new ≡ set (lows row.old) k place }
{
    row[k] = with_place(row[k], place);
}

// Reads a place.
pub fn place_at(row: &[u32], k: usize) -> usize
    requires { k < length row.now }
    ensures { result ≡ get_or (lows row.now) k 0 }
{
    let x = row[k] % PLACES;
    x as usize
}
