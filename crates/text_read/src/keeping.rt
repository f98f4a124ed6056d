// The lines of a text, whose rules and names are kept in rows, and the tests of what is kept.
ghost use Rattle.std.specs.Prelude.{◌≡◌, ℕ, ◌*◌, ◌≤◌, length, take, get_or};
ghost use Rattle.grammar.specs.Limits.{limits};
ghost use Rattle.grammar.specs.TableCheck.{stored_table, check_table};
ghost use Rattle.text.specs.Read.{read_text};
ghost use Rattle.text_read.specs.Texts.{table_read, Ready, Rows, LinesTold, NamesTold, KeptWithin, kept_read, module_read, ChecksText, ChecksModule};

use super::declaring::check_heads;
use super::rules::read_rules;
use super::{Heads, Kept, TextKept};
use grammar::{Cause, MAX_NAMES, MAX_TEXT, TableVerdict};
use text::TextRead;

// Two links for each name.
const LINKS: usize = 2 * MAX_NAMES;

// The rule lines, which start at place `from`.
fn keep_rules(
    text: &[u8],
    from: usize,
    t: usize,
    n: usize,
    starts: &[u32],
    lengths: &[u32],
    links: &[u16],
    row: &mut [u16],
) -> TextKept
    requires { Ready text.now from t n starts.now lengths.now links.now row.old }
    ensures { LinesTold text.now row.new result }
{
    let m = t + n;
    match read_rules(text, from, &starts[..m], &lengths[..m], links, t, row) {
        Kept::Fault(cause, at) => TextKept::Fault(cause, at),
        Kept::Entries(end) => TextKept::Rules {
            terminals: t,
            nonterminals: n,
            entries: end,
        },
    }
}

// All lines, with the names in a tree whose links are lent.
fn keep_lines(
    text: &[u8],
    row: &mut [u16],
    starts: &mut [u32],
    lengths: &mut [u32],
    links: &mut [u16],
) -> TextKept
    requires { (length text.now ≤ limits.max_text) × (Rows (length text.now) row.old starts.old lengths.old) × (2 * length starts.old ≤ length links.old) × ((i : ℕ) → get_or links.old i 0 ≡ 0) }
    ensures told { LinesTold text.now row.new result }
    ensures names { NamesTold (read_text limits text.now) starts.new lengths.new }
{
    match check_heads(text, starts, lengths, links) {
        Heads::Fault(cause, at) => TextKept::Fault(cause, at),
        Heads::Names {
            end,
            terminals,
            nonterminals,
        } => keep_rules(
            text,
            end + 1,
            terminals,
            nonterminals,
            starts,
            lengths,
            links,
            row,
        ),
    }
}

// 16, 18, 1, 17, 4 line by line. The rows get the first rules and the names' places. The links have left the stack when the table is
// checked: a caller calls this, then check_kept. It has one row of links for texts of any length, so that it calls keep_lines in one
// place: the compiler then puts that into it, and does not put it into its callers.
pub fn keep_text(text: &[u8], row: &mut [u16], starts: &mut [u32], lengths: &mut [u32]) -> TextKept
    requires { Rows (length text.now) row.old starts.old lengths.old }
    ensures told { LinesTold text.now row.new result }
    ensures names { NamesTold (read_text limits text.now) starts.new lengths.new }
{
    if MAX_TEXT < text.len() {
        return TextKept::Fault(Cause::Malformed, 0);
    }
    let mut links = [0u16; LINKS];
    keep_lines(text, row, starts, lengths, &mut links)
}

// 7, 6, 8 rule by rule, and 19: the table check of the rules that are kept.
pub fn last_tests(t: usize, n: usize, row: &[u16], end: usize) -> TextRead
    requires { end ≤ length row.now }
    ensures { result ≡ table_read t n end (check_table limits t n (take end row.now)) }
{
    let checked = table_check::check_table(t, n, &row[..end]);
    let verdict = checked.verdict;
    let g = checked.grammar;
    match verdict {
        TableVerdict::Refused(cause, at) => TextRead::Refused(cause, at),
        TableVerdict::Passed => TextRead::Read {
            terminals: t,
            nonterminals: n,
            entries: end,
            states: g.states,
        },
    }
}

// The answer but for 14, from what the lines give.
pub fn check_kept(kept: TextKept, row: &[u16]) -> TextRead
    requires { KeptWithin kept row.now }
    ensures { result ≡ kept_read kept row.now }
{
    match kept {
        TextKept::Fault(cause, at) => TextRead::Refused(cause, at),
        TextKept::Rules {
            terminals,
            nonterminals,
            entries,
        } => last_tests(terminals, nonterminals, row, entries),
    }
}

// A text's grammar: all tests but 14. The rows get its first rules and the names' places.
pub fn check_text(text: &[u8], row: &mut [u16], starts: &mut [u32], lengths: &mut [u32]) -> TextRead
    requires { Rows (length text.now) row.old starts.old lengths.old }
    ensures { ChecksText text.now result row.new starts.new lengths.new }
{
    let kept = keep_text(text, row, starts, lengths);
    check_kept(kept, row)
}

// 7, 6, 8 rule by rule.
fn rule_tests(t: usize, n: usize, row: &[u16], end: usize) -> TextRead
    requires { end ≤ length row.now }
    ensures { result ≡ table_read t n end (stored_table limits t n (take end row.now)) }
{
    let checked = table_check::check_up_to(t, n, &row[..end], false);
    let verdict = checked.verdict;
    let g = checked.grammar;
    match verdict {
        TableVerdict::Refused(cause, offset) => TextRead::Refused(cause, offset),
        TableVerdict::Passed => TextRead::Read {
            terminals: t,
            nonterminals: n,
            entries: end,
            states: g.states,
        },
    }
}

// The answer for a module's text, from what the lines give.
fn module_tests(kept: TextKept, row: &[u16]) -> TextRead
    requires { KeptWithin kept row.now }
    ensures { result ≡ module_read kept row.now }
{
    match kept {
        TextKept::Fault(cause, at) => TextRead::Refused(cause, at),
        TextKept::Rules {
            terminals,
            nonterminals,
            entries,
        } => rule_tests(terminals, nonterminals, row, entries),
    }
}

// A module's text, which may lack sentences: all tests but 19 and 14.
pub fn check_module(
    text: &[u8],
    row: &mut [u16],
    starts: &mut [u32],
    lengths: &mut [u32],
) -> TextRead
    requires { Rows (length text.now) row.old starts.old lengths.old }
    ensures { ChecksModule text.now result row.new starts.new lengths.new }
{
    let kept = keep_text(text, row, starts, lengths);
    module_tests(kept, row)
}
