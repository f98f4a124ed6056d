// Does a name stand twice? The names of a line are tried block by block: those of a block go into a lexicon, in which the later names
// of the line and those of the earlier line are looked up. A block has as many names as the lent rows hold, so lines of any length do.

#![tactic(auto)]

ghost use Rattle.std.specs.Prelude.{◌≡◌, ◌++◌, false, ℕ, ◌*◌, ◌≤◌, ◌<◌, length, take, get_or};
ghost use Rattle.grammar.specs.Limits.{limits};
ghost use Rattle.text.specs.Names.{has_double};
ghost use Rattle.text.specs.Read.{names_of};
ghost use Rattle.text.specs.Spelled.{spelled};
ghost use Rattle.lexicon.specs.Tree.{most_names, Spans, Lexicon};
ghost use Rattle.doubles.specs.Blocks.{meet, names_from, stand_twice, Block, BlockTold, BlockRows};

use names::COMMA;

// How many names a block has, and where the next one starts: past the end of the line where none is left.
#[derive(Drop)]
pub struct Kept {
    pub count: usize,
    pub next: usize,
}

// Keeps the starts and lengths of the names of v from place a on, as many as the rows hold.
fn keep(v: &[u8], a: usize, starts: &mut [u32], lengths: &mut [u32]) -> Kept
    requires { (length v.now ≤ limits.max_text) × (a ≤ length v.now) × (0 < length starts.old) × (length starts.old ≡ length lengths.old) }
    ensures room { result.count ≤ length starts.old }
    ensures onward { a < result.next }
    ensures kept { Block v.now a (take result.count starts.new) (take result.count lengths.new) result.next }
{
    let n = v.len();
    let mut next = a;
    for k in 0..starts.len() {
        if n < next {
            return Kept { count: k, next };
        }
        let e = names::find(v, next, COMMA);
        starts[k] = next as u32;
        lengths[k] = (e - next) as u32;
        next = e + 1;
    }
    Kept {
        count: starts.len(),
        next,
    }
}

// Is a name of u, from place a on, in the lexicon of v's names?
fn shared(u: &[u8], a: usize, v: &[u8], starts: &[u32], lengths: &[u32], links: &[u16]) -> bool
    requires { Lexicon v.now starts.now lengths.now links.now }
    ensures { result ≡ meet (names_from u.now a) (spelled v.now starts.now lengths.now) }
{
    let n = u.len();
    let mut next = a;
    while next <= n {
        let e = names::find(u, next, COMMA);
        if lexicon::find(v, starts, lengths, links, &u[next..e]) < starts.len() {
            return true;
        }
        next = e + 1;
    }
    false
}

// Does a name of the block stand twice: in it, from place `next` of v on, or in earlier?
fn stand_twice(
    earlier: &[u8],
    v: &[u8],
    next: usize,
    starts: &[u32],
    lengths: &[u32],
    links: &mut [u16],
) -> bool
    requires spans { (Spans v.now starts.now lengths.now) × (length starts.now ≤ most_names) × (2 * length starts.now ≤ length links.old) }
    requires by_index { (i : ℕ) → get_or links.old i 0 ≡ 0 }
    ensures { result ≡ stand_twice (names_of earlier.now) (names_from v.now next) (spelled v.now starts.now lengths.now) }
{
    if lexicon::plant(v, starts, lengths, links) < starts.len() {
        return true;
    }
    if shared(v, next, v, starts, lengths, links) {
        return true;
    }
    if earlier.is_empty() {
        return false;
    }
    shared(earlier, 0, v, starts, lengths, links)
}

// Tries the block that starts at place a of v, in the lent rows: none if a name of it stands twice, else where the next block starts.
fn try_block(
    earlier: &[u8],
    v: &[u8],
    a: usize,
    starts: &mut [u32],
    lengths: &mut [u32],
    links: &mut [u16],
) -> Option<usize>
    requires { (length v.now ≤ limits.max_text) × (a ≤ length v.now) × BlockRows starts.old lengths.old links.old }
    ensures { BlockTold (names_of earlier.now) v.now a result }
{
    links.fill(0);
    let Kept { count, next } = keep(v, a, starts, lengths);
    if stand_twice(earlier, v, next, &starts[..count], &lengths[..count], links) {
        return None;
    }
    Some(next)
}

// Does a name stand twice among those of earlier and of v, where none does in earlier? The rows are lent and overwritten.
pub fn has_double(
    earlier: &[u8],
    v: &[u8],
    starts: &mut [u32],
    lengths: &mut [u32],
    links: &mut [u16],
) -> bool
    requires { (length v.now ≤ limits.max_text) × (has_double (names_of earlier.now) ≡ false) × BlockRows starts.old lengths.old links.old }
    ensures { result ≡ has_double (names_of earlier.now ++ names_of v.now) }
{
    let n = v.len();
    if n == 0 {
        return false;
    }
    let mut a = 0;
    while a <= n {
        let Some(next) = try_block(earlier, v, a, starts, lengths, links) else {
            return true;
        };
        a = next;
    }
    false
}
