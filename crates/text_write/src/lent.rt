// The names that a caller lends: which are lent whole and well formed, and which stands again.
ghost use Rattle.std.specs.Prelude.{◌≡◌, [], ◌+◌, ◌≤◌, length};
ghost use Rattle.grammar.specs.Limits.{limits};
ghost use Rattle.text.specs.Print.{name_at, gather, first_double};
ghost use Rattle.text.specs.Spelled.{spelled};
ghost use Rattle.text_write.specs.Clauses.{is_well, stops_at, Rows};

use grammar::MAX_NAMES;

// Is the name of symbol i lent whole, and well formed?
fn is_lent(bytes: &[u8], starts: &[u32], lengths: &[u32], i: usize) -> bool
    ensures { result ≡ is_well (name_at bytes.now starts.now lengths.now i) }
{
    if starts.len() <= i {
        return false;
    }
    if lengths.len() <= i {
        return false;
    }
    let a = starts[i] as usize;
    let e = a + lengths[i] as usize;
    if bytes.len() < e {
        return false;
    }
    names::is_name(&bytes[a..e])
}

// The lowest of m symbols whose name is not so, or m.
pub fn first_bad(m: usize, bytes: &[u8], starts: &[u32], lengths: &[u32]) -> usize
    ensures { result ≡ stops_at m (gather bytes.now starts.now lengths.now 0 m) }
{
    for i in 0..m {
        if !is_lent(bytes, starts, lengths, i) {
            return i;
        }
    }
    m
}

// The lowest symbol whose name an earlier one has, or how many there are: the names are planted until one stands already.
pub fn first_double(bytes: &[u8], starts: &[u32], lengths: &[u32]) -> usize
    requires { Rows bytes.now starts.now lengths.now × (length starts.now ≤ limits.max_terminals + limits.max_nonterminals) }
    ensures { result ≡ first_double [] (spelled bytes.now starts.now lengths.now) }
{
    let mut links = [0u16; 2 * MAX_NAMES];
    lexicon::plant(bytes, starts, lengths, &mut links)
}
