// Bytes, keys and names. The put functions write into the output from a place on, and return the place after what they wrote.
ghost use Rattle.std.specs.Prelude.{[], ◌∷◌, ◌++◌, ◌+◌, ◌≤◌, ◌<◌, length, get_or};
ghost use Rattle.std.proofs.Math.Seq.{slice};
ghost use Rattle.text.specs.Pieces.{comma, equals, led_by, join};
ghost use Rattle.text.specs.Keys.{key};
ghost use Rattle.text.specs.Spelled.{spelled};
ghost use Rattle.text_write.specs.Clauses.{Rows, Wrote};

use names::{COMMA, EQUALS};

// Bytes as they are. Every byte of a text is stored here.
pub fn put_bytes(out: &mut [u8], at: usize, src: &[u8]) -> usize
    requires { at + length src.now ≤ length out.old }
    ensures { Wrote at src.now out.old result out.new }
{
    let end = at + src.len();
    copying::copy(&mut out[at..end], src);
    end
}

pub fn put_byte(out: &mut [u8], at: usize, b: u8) -> usize
    requires { at < length out.old }
    ensures { Wrote at (b ∷ []) out.old result out.new }
{
    put_bytes(out, at, &[b])
}

// Key k and its equals sign.
pub fn put_key(out: &mut [u8], at: usize, k: usize) -> usize
    requires { (k < 3) × (at + length (key k ++ (equals ∷ [])) ≤ length out.old) }
    ensures { Wrote at (key k ++ (equals ∷ [])) out.old result out.new }
{
    let j = put_bytes(out, at, names::key(k));
    put_byte(out, j, EQUALS)
}

// The name of symbol i.
pub fn put_name(
    out: &mut [u8],
    at: usize,
    bytes: &[u8],
    starts: &[u32],
    lengths: &[u32],
    i: usize,
) -> usize
    requires { Rows bytes.now starts.now lengths.now × (i < length starts.now)
        × (at + length (get_or (spelled bytes.now starts.now lengths.now) i []) ≤ length out.old) }
    ensures { Wrote at (get_or (spelled bytes.now starts.now lengths.now) i [])
        out.old result out.new }
{
    let a = starts[i] as usize;
    let e = a + lengths[i] as usize;
    put_bytes(out, at, &bytes[a..e])
}

// Names from one symbol up to another, with a comma before each.
fn put_led(
    out: &mut [u8],
    at: usize,
    bytes: &[u8],
    starts: &[u32],
    lengths: &[u32],
    from: usize,
    to: usize,
) -> usize
    requires { Rows bytes.now starts.now lengths.now × (from ≤ to) × (to ≤ length starts.now)
        × (at + length (led_by comma (slice from to (spelled bytes.now starts.now lengths.now))) ≤ length out.old) }
    ensures { Wrote at
        (led_by comma (slice from to (spelled bytes.now starts.now lengths.now)))
        out.old result out.new }
{
    let mut j = at;
    for i in from..to {
        j = put_byte(out, j, COMMA);
        j = put_name(out, j, bytes, starts, lengths, i);
    }
    j
}

// The same with a comma between them.
pub fn put_names(
    out: &mut [u8],
    at: usize,
    bytes: &[u8],
    starts: &[u32],
    lengths: &[u32],
    from: usize,
    to: usize,
) -> usize
    requires { Rows bytes.now starts.now lengths.now × (from ≤ to) × (to ≤ length starts.now)
        × (at + length (join comma (slice from to (spelled bytes.now starts.now lengths.now))) ≤ length out.old) }
    ensures { Wrote at
        (join comma (slice from to (spelled bytes.now starts.now lengths.now)))
        out.old result out.new }
{
    if to <= from {
        return at;
    }
    let j = put_name(out, at, bytes, starts, lengths, from);
    put_led(out, j, bytes, starts, lengths, from + 1, to)
}
