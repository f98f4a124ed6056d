// What is printed for a text: the program's limits, the reader, the search, and the two sides of a witness in words.
// Each function writes into an output that is never too short, and returns the place after what it wrote.
ghost use Rattle.std.specs.Prelude.{◌≡◌, ◌≤◌, length};
ghost use Rattle.grammar.specs.Limits.{limits};
ghost use Rattle.grammar.specs.TableCheck.{check_table};
ghost use Rattle.text.specs.Spelled.{spelled};
ghost use Rattle.text_write.specs.Clauses.{Wrote};
ghost use Rattle.report.specs.Report.{report_of, report_size};
ghost use Rattle.report.specs.Clauses.{Tellable, Speakable, table_lines, sides_lines};

use super::put::{put_potential, put_refused, put_unambiguous};
use super::{PROGRAM_STATES, PROGRAM_TEXT};
use grammar::{Cause, MAX_ENTRIES, MAX_NAMES};
use search::SearchVerdict;
use text::TextRead;

// The triples of PROGRAM_STATES states, and the bytes of a certificate.
const TRIPLES: usize = 2 * PROGRAM_STATES * PROGRAM_STATES;

const BYTES: usize = TRIPLES / 8;

// The two lines of the shortest witness, which is lent, from a place on.
fn put_sides(
    out: &mut [u8],
    at: usize,
    t: usize,
    n: usize,
    table: &[u16],
    q: usize,
    row: &[u32],
    text: &[u8],
    starts: &[u32],
    lengths: &[u32],
) -> usize
    requires { Speakable t n table.now q text.now starts.now lengths.now row.now at out.old }
    ensures { Wrote at (sides_lines (check_table limits t n table.now) (spelled text.now starts.now lengths.now))
        out.old result out.new }
{
    let mut left = [0u32; TRIPLES];
    let mut right = [0u32; TRIPLES];
    let size = witness_sides::two_sides(t, n, table, row, &mut left, &mut right);
    let a = size.left;
    let b = size.right;
    readings_write::put_readings(out, at, &left[..a], &right[..b], t, text, starts, lengths)
}

// Q, verdict and size, or the two sides, of a table that passes. The search is a public entry that takes every table, so it checks
// this one again, though the reader has just done so: a second way in, for checked tables, would be one more promise.
fn put_table(
    out: &mut [u8],
    t: usize,
    n: usize,
    table: &[u16],
    q: usize,
    text: &[u8],
    starts: &[u32],
    lengths: &[u32],
) -> usize
    requires { Tellable t n table.now q text.now starts.now lengths.now × (report_size ≤ length out.old) }
    ensures { Wrote 0 (table_lines (check_table limits t n table.now) (spelled text.now starts.now lengths.now))
        out.old result out.new }
{
    let mut certificate = [0u8; BYTES];
    let mut queue = [0u32; TRIPLES];
    let mut parents = [0u32; TRIPLES];
    let mut witness = [0u32; TRIPLES];
    let verdict = search::search(
        t,
        n,
        table,
        0,
        &mut certificate,
        &mut queue,
        &mut parents,
        &mut witness,
    );
    match verdict {
        SearchVerdict::Unambiguous(reached, _) => put_unambiguous(out, q, reached),
        SearchVerdict::Potential(entries, _) => {
            let at = put_potential(out, q);
            put_sides(
                out,
                at,
                t,
                n,
                table,
                q,
                &witness[..entries],
                text,
                starts,
                lengths,
            )
        }
        SearchVerdict::Refused(_, _) => 0,
    }
}

// A longer text is 14 before any other fault; more states are 14 after all faults of the text.
pub fn put_report(out: &mut [u8], text: &[u8]) -> usize
    requires { report_size ≤ length out.old }
    ensures { Wrote 0 (report_of text.now) out.old result out.new }
{
    if PROGRAM_TEXT < text.len() {
        return put_refused(out, Cause::BufferTooShort, 0);
    }
    let mut table = [0u16; MAX_ENTRIES];
    let mut starts = [0u32; MAX_NAMES];
    let mut lengths = [0u32; MAX_NAMES];
    let read = text_read::read_text(text, &mut table, &mut starts, &mut lengths);
    match read {
        TextRead::Refused(cause, at) => put_refused(out, cause, at),
        TextRead::Read {
            terminals,
            nonterminals,
            entries,
            states,
        } => {
            if PROGRAM_STATES < states {
                return put_refused(out, Cause::BufferTooShort, 0);
            }
            let m = terminals + nonterminals;
            put_table(
                out,
                terminals,
                nonterminals,
                &table[..entries],
                states,
                text,
                &starts[..m],
                &lengths[..m],
            )
        }
    }
}
