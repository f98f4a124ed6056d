// The writer of grammar text: any t, n, table and lent names to the text or to its length alone, or to the first refusal.
// All is checked before a byte is written, so a refusal leaves the output as it was.

#![tactic(auto)]

mod lent;
mod lines;
mod put;
mod size;

ghost use Rattle.grammar.specs.Table.{decode};
ghost use Rattle.text.specs.Promise.{WritesText, LengthAnswer};
ghost use Rattle.text.specs.Spelled.{spelled};
ghost use Rattle.text_write.specs.Clauses.{Checked, Ready, NamedAnswer};

use grammar::{Cause, TableVerdict};
pub use put::{put_byte, put_bytes, put_name};
pub use size::symbol;
use text::{TextLength, TextWritten};

// 18, then the length of the text, for a checked table and well-formed names.
fn named_length(
    t: usize,
    table: &[u16],
    bytes: &[u8],
    starts: &[u32],
    lengths: &[u32],
) -> TextLength
    requires { Ready t table.now bytes.now starts.now lengths.now }
    ensures { NamedAnswer t (spelled bytes.now starts.now lengths.now)
        (decode table.now) result }
{
    let m = starts.len();
    let double = lent::first_double(bytes, starts, lengths);
    if double < m {
        return TextLength::Refused(Cause::NameRepeated, double);
    }
    TextLength::Bytes(size::text_length(table, t, lengths))
}

// 16, then 18 and the length, for a checked table.
fn checked_length(
    t: usize,
    n: usize,
    table: &[u16],
    bytes: &[u8],
    starts: &[u32],
    lengths: &[u32],
) -> TextLength
    requires { Checked t n table.now }
    ensures { LengthAnswer t n table.now bytes.now starts.now lengths.now result }
{
    let m = t + n;
    let bad = lent::first_bad(m, bytes, starts, lengths);
    if bad < m {
        return TextLength::Refused(Cause::Malformed, bad);
    }
    named_length(t, table, bytes, &starts[..m], &lengths[..m])
}

// How many bytes the writer would write, from what it would be given. No text is made.
pub fn written_length(
    t: usize,
    n: usize,
    table: &[u16],
    bytes: &[u8],
    starts: &[u32],
    lengths: &[u32],
) -> TextLength
    ensures { LengthAnswer t n table.now bytes.now starts.now lengths.now result }
{
    let checked = table_check::check_table(t, n, table);
    let verdict = checked.verdict;
    match verdict {
        TableVerdict::Refused(cause, at) => TextLength::Refused(cause, at),
        TableVerdict::Passed => checked_length(t, n, table, bytes, starts, lengths),
    }
}

// The writer: the name of symbol i, terminals first, is the part of `bytes` that starts at `starts[i]` and has `lengths[i]` bytes.
// The length is known before a byte is written: 14 where the output is shorter.
pub fn write_text(
    t: usize,
    n: usize,
    table: &[u16],
    bytes: &[u8],
    starts: &[u32],
    lengths: &[u32],
    out: &mut [u8],
) -> TextWritten
    ensures { WritesText t n table.now bytes.now starts.now lengths.now
        out.old result out.new }
{
    let told = written_length(t, n, table, bytes, starts, lengths);
    match told {
        TextLength::Refused(cause, at) => TextWritten::Refused(cause, at),
        TextLength::Bytes(size) => {
            if out.len() < size {
                return TextWritten::Refused(Cause::BufferTooShort, 0);
            }
            let m = t + n;
            let end = lines::put_text(out, table, t, bytes, &starts[..m], &lengths[..m]);
            TextWritten::Written(end)
        }
    }
}
