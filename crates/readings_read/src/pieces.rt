// What stands between two spaces: `(` or `)` with the number of a rule, or a name.
ghost use Rattle.std.specs.Prelude.{◌≡◌, ◌+◌, ◌≤◌, length};
ghost use Rattle.grammar.specs.Limits.{limits};
ghost use Rattle.text.specs.Spelled.{spelled};
ghost use Rattle.lexicon.specs.Tree.{Lexicon};
ghost use Rattle.readings.specs.Readings.{word_of};
ghost use Rattle.readings_read.specs.Words.{Symbols, mark_piece, name_piece, piece_of};

use super::WordFault;
use readings::{CLOSES, CLOSING, KIND_UNIT, OPENING, OPENS, SYMBOL};

// The digits 0 and 9.
const ZERO: u8 = 48;

const NINE: u8 = 57;

// The digits of a rule's number, decimal without leading zeros and at most count, as a letter of a kind. The value is left as
// soon as it exceeds count, so it never overflows.
fn mark(kind: u32, s: &[u8], count: usize) -> Result<u32, WordFault>
    requires { (kind ≤ 3) × (count ≤ limits.max_rules) }
    ensures { result ≡ mark_piece kind count s.now }
{
    let n = s.len();
    if n == 0 {
        return Err(WordFault::Malformed);
    }
    if s[0] == ZERO {
        if n == 1 {
            return Ok(kind * KIND_UNIT);
        }
        return Err(WordFault::Malformed);
    }
    let mut x = 0;
    for b in s {
        if *b < ZERO {
            return Err(WordFault::Malformed);
        }
        if NINE < *b {
            return Err(WordFault::Malformed);
        }
        x = x * 10 + (*b - ZERO) as usize;
        if count < x {
            return Err(WordFault::Malformed);
        }
    }
    Ok(kind * KIND_UNIT + x as u32)
}

// A name, if it is one, and its symbol's code, if it is known.
fn name(
    x: &[u8],
    text: &[u8],
    starts: &[u32],
    lengths: &[u32],
    links: &[u16],
    t: usize,
) -> Result<u32, WordFault>
    requires { (Lexicon text.now starts.now lengths.now links.now) × (t ≤ limits.max_terminals) × (length starts.now ≤ t + limits.max_nonterminals) }
    ensures { result ≡ name_piece t (spelled text.now starts.now lengths.now) x.now }
{
    if names::is_name(x) {
        let i = lexicon::find(text, starts, lengths, links, x);
        if starts.len() <= i {
            return Err(WordFault::Unknown);
        }
        return Ok(SYMBOL * KIND_UNIT + text_read::code_of(t, i) as u32);
    }
    Err(WordFault::Malformed)
}

// What a piece says in a grammar of t terminals and count rules, whose names the rows spell in its text and the links find.
pub fn read_piece(
    p: &[u8],
    text: &[u8],
    starts: &[u32],
    lengths: &[u32],
    links: &[u16],
    t: usize,
    count: usize,
) -> Result<u32, WordFault>
    requires { Symbols t count text.now starts.now lengths.now links.now }
    ensures { result ≡ piece_of t count (spelled text.now starts.now lengths.now) (word_of count p.now) }
{
    let n = p.len();
    if n == 0 {
        return Err(WordFault::Malformed);
    }
    if p[0] == OPENS {
        return mark(OPENING, &p[1..], count);
    }
    if p[0] == CLOSES {
        return mark(CLOSING, &p[1..], count);
    }
    name(p, text, starts, lengths, links, t)
}
