// Lines, and the whole text. Each function returns the place after what it wrote.
ghost use Rattle.std.specs.Prelude.{◌∷◌, ◌+◌, ◌≤◌, ◌<◌, length};
ghost use Rattle.std.proofs.Math.Seq.{slice};
ghost use Rattle.grammar.specs.Table.{decode};
ghost use Rattle.text.specs.Pieces.{comma, join};
ghost use Rattle.text.specs.Spelled.{spelled};
ghost use Rattle.text_write.specs.Clauses.{Rows, Known, Coded, Wrote, line_text, codes_text, rule_text, rules_text, text_of};

use super::put::{put_byte, put_key, put_name, put_names};
use super::size::symbol;
use names::{COLON, LINE_END, NONTERMINALS, RULE, SPACE, TERMINALS};

// A line that declares names under key k.
fn put_line(
    out: &mut [u8],
    at: usize,
    k: usize,
    bytes: &[u8],
    starts: &[u32],
    lengths: &[u32],
    from: usize,
    to: usize,
) -> usize
    requires { Rows bytes.now starts.now lengths.now × (from ≤ to) × (to ≤ length starts.now) × (k < 3)
        × (at + length (line_text k (join comma (slice from to (spelled bytes.now starts.now lengths.now))))
        ≤ length out.old) }
    ensures { Wrote at
        (line_text k (join comma (slice from to (spelled bytes.now starts.now lengths.now))))
        out.old result out.new }
{
    let i = put_key(out, at, k);
    let j = put_names(out, i, bytes, starts, lengths, from, to);
    put_byte(out, j, LINE_END)
}

// The names of codes, with a space before each.
fn put_codes(
    out: &mut [u8],
    at: usize,
    codes: &[u16],
    t: usize,
    bytes: &[u8],
    starts: &[u32],
    lengths: &[u32],
) -> usize
    requires { Rows bytes.now starts.now lengths.now × Known t (length starts.now) codes.now
        × (at + length (codes_text t (spelled bytes.now starts.now lengths.now) codes.now) ≤ length out.old) }
    ensures { Wrote at
        (codes_text t (spelled bytes.now starts.now lengths.now) codes.now)
        out.old result out.new }
{
    let mut j = at;
    for code in codes {
        let s = symbol(t, *code);
        j = put_byte(out, j, SPACE);
        j = put_name(out, j, bytes, starts, lengths, s);
    }
    j
}

// A rule's line.
fn put_rule(
    out: &mut [u8],
    at: usize,
    left: u16,
    codes: &[u16],
    t: usize,
    bytes: &[u8],
    starts: &[u32],
    lengths: &[u32],
) -> usize
    requires { Rows bytes.now starts.now lengths.now × Known t (length starts.now) (left ∷ codes.now)
        × (at + length (rule_text t (spelled bytes.now starts.now lengths.now) (record { left = left; right = codes.now }))
        ≤ length out.old) }
    ensures { Wrote at
        (rule_text t (spelled bytes.now starts.now lengths.now)
        (record { left = left; right = codes.now }))
        out.old result out.new }
{
    let s = symbol(t, left);
    let a = put_key(out, at, RULE);
    let b = put_name(out, a, bytes, starts, lengths, s);
    let c = put_byte(out, b, COLON);
    let d = put_codes(out, c, codes, t, bytes, starts, lengths);
    put_byte(out, d, LINE_END)
}

// The lines of all rules.
fn put_rules(
    out: &mut [u8],
    at: usize,
    table: &[u16],
    t: usize,
    bytes: &[u8],
    starts: &[u32],
    lengths: &[u32],
) -> usize
    requires { Rows bytes.now starts.now lengths.now × Coded t (length starts.now) table.now
        × (at + length (rules_text t (spelled bytes.now starts.now lengths.now) table.now) ≤ length out.old) }
    ensures { Wrote at
        (rules_text t (spelled bytes.now starts.now lengths.now) table.now)
        out.old result out.new }
{
    let mut j = at;
    let mut o = 0;
    while o < table.len() {
        let left = table[o];
        let k = table[o + 1] as usize;
        let a = o + 2;
        let e = a + k;
        j = put_rule(out, j, left, &table[a..e], t, bytes, starts, lengths);
        o = e;
    }
    j
}

// The whole text.
pub fn put_text(
    out: &mut [u8],
    table: &[u16],
    t: usize,
    bytes: &[u8],
    starts: &[u32],
    lengths: &[u32],
) -> usize
    requires { Rows bytes.now starts.now lengths.now × Coded t (length starts.now) table.now
        × (t ≤ length starts.now)
        × (length (text_of t (spelled bytes.now starts.now lengths.now) (decode table.now)) ≤ length out.old) }
    ensures { Wrote 0
        (text_of t (spelled bytes.now starts.now lengths.now) (decode table.now))
        out.old result out.new }
{
    let m = starts.len();
    let i = put_line(out, 0, TERMINALS, bytes, starts, lengths, 0, t);
    let j = put_line(out, i, NONTERMINALS, bytes, starts, lengths, t, m);
    put_rules(out, j, table, t, bytes, starts, lengths)
}
