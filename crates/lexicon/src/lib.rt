// Names looked up by their numbers: the names of some rows of starts and lengths go into a digital search tree, one row of links with
// two for each name, where a search takes one bit at each step and compares in full. The first bits are those of a key made of the name,
// so that names which begin alike part early; the later ones are the name's own, so that a way has at most KEY_BITS steps more than a
// name has bits. A link is a name's number; 0 is none, since name 0 is the root.

#![tactic(auto)]

ghost use Rattle.std.specs.Prelude.{◌≡◌, [], ℕ, ◌+◌, ◌*◌, ◌≤◌, ◌<◌, length, get_or};
ghost use Rattle.text.specs.Names.{same_name, place};
ghost use Rattle.text.specs.Print.{first_double};
ghost use Rattle.text.specs.Spelled.{spelled};
ghost use Rattle.lexicon.specs.Tree.{folded_name, key_of, turn, name_of, Spans, Grown, Told, most_names, Lexicon, Planted};

// How many turns go by the key, and the first bit of it that does.
const KEY_BITS: usize = 24;

const KEY_SKIP: usize = 28;

// What of the key is carried on to the next byte, and what it is then multiplied by.
const KEY_SPAN: usize = 4294967296;

const KEY_FACTOR: usize = 2654435761;

// The key of a name, of which folded bytes count.
fn key_of(x: &[u8]) -> usize
    ensures { result ≡ key_of (folded_name x.now) }
{
    x.iter().fold(0, |key, b| {
        (key % KEY_SPAN + usize::from(names::fold(*b))) * KEY_FACTOR
    })
}

// Where a name with this key turns at depth d: by a bit of the key, later by one of its folded bytes; 0 past its end.
fn bit(x: &[u8], key: usize, d: usize) -> usize
    requires { key ≡ key_of (folded_name x.now) }
    ensures { (result ≡ turn (folded_name x.now) d) × (result < 2) }
{
    if d < KEY_BITS {
        return (key >> (KEY_SKIP + d)) % 2;
    }
    let j = d - KEY_BITS;
    let i = j / 8;
    if x.len() <= i {
        return 0;
    }
    usize::from((names::fold(x[i]) >> (j % 8)) % 2)
}

// Follows the way of x from name 0, where the tree has the first `count` names: the number of the one that is x, or where its link
// belongs.
fn seek(
    text: &[u8],
    starts: &[u32],
    lengths: &[u32],
    links: &[u16],
    count: usize,
    x: &[u8],
) -> Result<usize, usize>
    requires spans { (Spans text.now starts.now lengths.now) × (count ≤ length starts.now) × (count ≤ most_names) × (2 * count ≤ length links.now) }
    requires grown { Grown (name_of text.now starts.now lengths.now) links.now count }
    ensures { Told (name_of text.now starts.now lengths.now) links.now count x.now result }
{
    let key = key_of(x);
    let mut q = 0;
    let mut d = 0;
    loop {
        let a = starts[q] as usize;
        let e = a + lengths[q] as usize;
        if names::same_name(x, &text[a..e]) {
            return Ok(q);
        }
        let i = 2 * q + bit(x, key, d);
        let next = usize::from(links[i]);
        if next == 0 {
            return Err(i);
        }
        q = next;
        d += 1;
    }
}

// Goes on putting names into the tree, from number `from` on, up to the first that is there already: its number, or how many names
// there are.
pub fn grow(text: &[u8], starts: &[u32], lengths: &[u32], links: &mut [u16], from: usize) -> usize
    requires { Planted text.now starts.now lengths.now links.old from }
    ensures value { result ≡ first_double [] (spelled text.now starts.now lengths.now) }
    ensures lexicon { result ≡ length starts.now → Lexicon text.now starts.now lengths.now links.new }
{
    let n = starts.len();
    if n == 0 {
        return 0;
    }
    for k in from.max(1)..n {
        let a = starts[k] as usize;
        let e = a + lengths[k] as usize;
        let Err(i) = seek(text, starts, lengths, links, k, &text[a..e]) else {
            return k;
        };
        links[i] = k as u16;
    }
    n
}

// Puts the names into an empty tree, up to the first that is there already: its number, or how many names there are.
pub fn plant(text: &[u8], starts: &[u32], lengths: &[u32], links: &mut [u16]) -> usize
    requires spans { (Spans text.now starts.now lengths.now) × (length starts.now ≤ most_names) × (2 * length starts.now ≤ length links.old) }
    requires by_index { (i : ℕ) → get_or links.old i 0 ≡ 0 }
    ensures value { result ≡ first_double [] (spelled text.now starts.now lengths.now) }
    ensures lexicon { result ≡ length starts.now → Lexicon text.now starts.now lengths.now links.new }
{
    grow(text, starts, lengths, links, 0)
}

// The number of the name that is x, or how many names there are.
pub fn find(text: &[u8], starts: &[u32], lengths: &[u32], links: &[u16], x: &[u8]) -> usize
    requires { Lexicon text.now starts.now lengths.now links.now }
    ensures { result ≡ place (same_name x.now) (spelled text.now starts.now lengths.now) }
{
    let n = starts.len();
    if n == 0 {
        return 0;
    }
    seek(text, starts, lengths, links, n, x).unwrap_or(n)
}
