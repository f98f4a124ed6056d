// Pieces, names and keys of grammar text: what the reader and the writer share.

#![tactic(auto)]

ghost use Rattle.std.specs.Prelude.{◌≡◌, ◌≤◌, ◌<◌, length};
ghost use Rattle.text.specs.Names.{within, is_name_byte, is_name, folded, same_name};
ghost use Rattle.text.specs.Keys.{key};
ghost use Rattle.names.specs.Found.{Found};

// The bytes that end a line, and that stand between names, after a left name, before a symbol, after a key.
pub const LINE_END: u8 = b'\n';

pub const COMMA: u8 = b',';

pub const COLON: u8 = b':';

pub const SPACE: u8 = b' ';

pub const EQUALS: u8 = b'=';

// The keys by their numbers.
pub const TERMINALS: usize = 0;

pub const NONTERMINALS: usize = 1;

pub const RULE: usize = 2;

// The keys, padded with 0, and their lengths: the form that the document wants.
static KEYS: [[u8; 12]; 3] = [
    *b"terminals\0\0\0",
    *b"nonterminals",
    *b"rule\0\0\0\0\0\0\0\0",
];

const KEY_LENGTHS: [usize; 3] = [9, 12, 4];

// The place of the first c at or after from, or the length.
pub fn find(s: &[u8], from: usize, c: u8) -> usize
    requires { from ≤ length s.now }
    ensures { Found c s.now from result }
{
    match s[from..].iter().position(|b| *b == c) {
        Some(k) => from + k,
        None => s.len(),
    }
}

// An ASCII letter, a digit or a hyphen.
fn is_name_byte(b: u8) -> bool
    ensures { result ≡ is_name_byte b }
{
    b.is_ascii_alphanumeric() || b == b'-'
}

// 1 to 15 such bytes.
pub fn is_name(s: &[u8]) -> bool
    ensures { result ≡ is_name s.now }
{
    if s.is_empty() || 15 < s.len() {
        return false;
    }
    s.iter().all(|b| is_name_byte(*b))
}

// What of a byte counts where names are compared: a capital letter counts as the small one (document 02, [9]). All comparisons of
// names go through this function.
pub fn fold(b: u8) -> u8
    ensures { result ≡ folded b }
{
    b.to_ascii_lowercase()
}

// Are two names the same name? The last bytes are compared first, since many names have their fronts in common.
pub fn same_name(a: &[u8], b: &[u8]) -> bool
    ensures { result ≡ same_name a.now b.now }
{
    let n = a.len();
    if n != b.len() {
        return false;
    }
    for i in (0..n).rev() {
        if fold(a[i]) != fold(b[i]) {
            return false;
        }
    }
    true
}

// Key k, without its padding.
pub fn key(k: usize) -> &'static [u8]
    requires { k < 3 }
    ensures { result.now ≡ key k }
{
    &KEYS[k][..KEY_LENGTHS[k]]
}
