// Rule lines: each is tested, and its entries are put into a row.
ghost use Rattle.std.specs.Prelude.{◌≡◌, ◌+◌, ◌≤◌, length, drop, set};
ghost use Rattle.grammar.specs.Limits.{limits};
ghost use Rattle.text.specs.Pieces.{split_on};
ghost use Rattle.text.specs.Read.{rule_line, rule_lines};
ghost use Rattle.text.specs.Spelled.{spelled};
ghost use Rattle.text_read.specs.Lines.{rule_value, ShapeAt, CodesFit, CodesTaken, LineReady, KeptTold, RulesReady, RulesTold};

use super::symbols::code_of;
use super::value::{key_split, rule_shape};
use super::{Kept, Shape, Split};
use grammar::{Cause, MAX_LENGTH, MAX_RULES};
use names::{LINE_END, RULE, SPACE};

// One rule more than a grammar has: the table check refuses it, so the rules after it need not be kept.
const KEPT_RULES: usize = MAX_RULES + 1;

// Puts an entry into a row at place j, if the row goes so far.
fn put_entry(row: &mut [u16], j: usize, x: u16)
    ensures { row.new ≡ set row.old j x }
{
    if row.len() <= j {
        return;
    }
    row[j] = x;
}

// Looks up each name after a rule's colon, up to the first that is unknown: are all known? Their codes go into a row from entry
// `at` on, as far as it goes. What stands past the entries in use does not count, so a rule that is refused may leave some there.
fn take_codes(
    r: &[u8],
    text: &[u8],
    starts: &[u32],
    lengths: &[u32],
    links: &[u16],
    t: usize,
    row: &mut [u16],
    at: usize,
) -> bool
    requires { CodesFit r.now text.now starts.now lengths.now links.now t row.old at }
    ensures { CodesTaken t (spelled text.now starts.now lengths.now) (drop 1 (split_on 32 r.now)) at row.old row.new result }
{
    let n = r.len();
    if n == 0 {
        return true;
    }
    let m = starts.len();
    let mut a = 1;
    let mut j = at;
    loop {
        let e = names::find(r, a, SPACE);
        let i = lexicon::find(text, starts, lengths, links, &r[a..e]);
        if m <= i {
            return false;
        }
        put_entry(row, j, code_of(t, i));
        if n <= e {
            return true;
        }
        a = e + 1;
        j += 1;
    }
}

// A rule's value of known shape, after k rules: 17, 4; then its entries, if it is to be kept, stand from entry `end` of the row on.
fn take_rule(
    at: usize,
    k: usize,
    v: &[u8],
    colon: usize,
    count: usize,
    text: &[u8],
    starts: &[u32],
    lengths: &[u32],
    links: &[u16],
    t: usize,
    row: &mut [u16],
    end: usize,
) -> Kept
    requires { (ShapeAt v.now colon count) × (LineReady text.now starts.now lengths.now links.now t row.old k end (length v.now + 1)) }
    ensures { KeptTold (rule_value at t (spelled text.now starts.now lengths.now) v.now) k end (length v.now + 1) row.old row.new result }
{
    let left = lexicon::find(text, starts, lengths, links, &v[0..colon]);
    if left < t {
        return Kept::Fault(Cause::NameUnknown, at);
    }
    if starts.len() <= left {
        return Kept::Fault(Cause::NameUnknown, at);
    }
    let a = colon + 1;
    let n = v.len();
    if !take_codes(&v[a..n], text, starts, lengths, links, t, row, end + 2) {
        return Kept::Fault(Cause::NameUnknown, at);
    }
    if MAX_LENGTH < count {
        return Kept::Fault(Cause::RuleTooLong, at);
    }
    if KEPT_RULES <= k {
        return Kept::Entries(end);
    }
    row[end] = code_of(t, left);
    row[end + 1] = count as u16;
    Kept::Entries(end + 2 + count)
}

// A rule's line, after k rules: 16, 17, 4.
fn rule_line(
    at: usize,
    k: usize,
    line: &[u8],
    text: &[u8],
    starts: &[u32],
    lengths: &[u32],
    links: &[u16],
    t: usize,
    row: &mut [u16],
    end: usize,
) -> Kept
    requires { LineReady text.now starts.now lengths.now links.now t row.old k end (length line.now) }
    ensures { KeptTold (rule_line limits at t (spelled text.now starts.now lengths.now) line.now) k end (length line.now) row.old row.new result }
{
    let Split::Value { start, end: stop } = key_split(line, RULE) else {
        return Kept::Fault(Cause::Malformed, at);
    };
    let v = &line[start..stop];
    let Some(Shape { colon, count }) = rule_shape(v) else {
        return Kept::Fault(Cause::Malformed, at);
    };
    take_rule(
        at, k, v, colon, count, text, starts, lengths, links, t, row, end,
    )
}

// The rule lines, which start at place `from`. The row gets the entries of the rules that are kept.
pub fn read_rules(
    text: &[u8],
    from: usize,
    starts: &[u32],
    lengths: &[u32],
    links: &[u16],
    t: usize,
    row: &mut [u16],
) -> Kept
    requires { (RulesReady text.now starts.now lengths.now links.now t row.old) × (from ≤ length text.now) }
    ensures { RulesTold (rule_lines limits 3 t (spelled text.now starts.now lengths.now) (split_on 10 (drop from text.now))) row.new result }
{
    let n = text.len();
    let mut a = from;
    let mut k = 0;
    let mut end = 0;
    loop {
        let e = names::find(text, a, LINE_END);
        if n <= e {
            if a < n {
                return Kept::Fault(Cause::Malformed, k + 3);
            }
            return Kept::Entries(end);
        }
        let kept = rule_line(
            k + 3,
            k,
            &text[a..e],
            text,
            starts,
            lengths,
            links,
            t,
            row,
            end,
        );
        let Kept::Entries(next) = kept else {
            return kept;
        };
        end = next;
        k += 1;
        a = e + 1;
    }
}
