// The reader of grammar text: any bytes to a table and the places of the names, or to the first refusal.
// Everything is checked over local rows before a lent row is written.

#![tactic(auto)]

mod declaring;
mod keeping;
mod rules;
mod symbols;
mod value;

ghost use Rattle.std.specs.Prelude.{◌≡◌, ◌≤◌, length, replicate};
ghost use Rattle.grammar.specs.Basics.{over};
ghost use Rattle.text.specs.Promise.{ReadsText};
ghost use Rattle.text_read.specs.Lines.{kept_entries};
ghost use Rattle.text_read.specs.Texts.{Rows, TextIn};

use grammar::{Cause, MAX_LENGTH, MAX_NAMES, MAX_RULES};
use keeping::{check_kept, keep_text};
pub use keeping::{check_module, check_text, last_tests};
pub use symbols::code_of;
use text::TextRead;

// The entries of the rules that are kept, one more than a grammar has.
pub const KEPT_ENTRIES: usize = (MAX_RULES + 1) * (MAX_LENGTH + 2);

// A text of at most so many bytes is read in rows of so many entries, which are cleared sooner.
pub const SMALL_TEXT: usize = 512;

// Where the value of a line stands: the document's form, of which `let .. else` takes start and end.
#[derive(Drop)]
pub enum Split {
    Value { start: usize, end: usize },
    Malformed,
}

// What a declaring line gives: where its value starts in the text, and how many names it has.
#[derive(Drop)]
pub enum Declared {
    Names { start: usize, count: usize },
    Fault(Cause, usize),
}

// What the two declaring lines give: where the second ends, t and n.
#[derive(Drop)]
pub enum Heads {
    Names {
        end: usize,
        terminals: usize,
        nonterminals: usize,
    },
    Fault(Cause, usize),
}

// The shape of a rule's value: where its colon stands, and how many names follow.
#[derive(Clone, Copy)]
pub struct Shape {
    pub colon: usize,
    pub count: usize,
}

// How many entries of the local table are in use after a rule's line, or after all.
#[derive(Drop)]
pub enum Kept {
    Entries(usize),
    Fault(Cause, usize),
}

// What the lines of a text give: t, n, and how many entries of the local table are in use.
#[derive(Drop)]
pub enum TextKept {
    Rules {
        terminals: usize,
        nonterminals: usize,
        entries: usize,
    },
    Fault(Cause, usize),
}

// The reader, after the lines of a text: the last tests, 14, and what is kept goes to the lent rows.
fn read_in(
    text: &[u8],
    kept: TextKept,
    row: &[u16],
    begins: &[u32],
    sizes: &[u32],
    table: &mut [u16],
    starts: &mut [u32],
    lengths: &mut [u32],
) -> TextRead
    requires { TextIn text.now kept row.now begins.now sizes.now }
    ensures { ReadsText text.now table.old starts.old lengths.old result table.new starts.new lengths.new }
{
    let read = check_kept(kept, row);
    let TextRead::Read {
        terminals,
        nonterminals,
        entries,
        states: _,
    } = read
    else {
        return read;
    };
    let count = terminals + nonterminals;
    if table.len() < entries {
        return TextRead::Refused(Cause::BufferTooShort, 0);
    }
    if starts.len() < count {
        return TextRead::Refused(Cause::BufferTooShort, 0);
    }
    if lengths.len() < count {
        return TextRead::Refused(Cause::BufferTooShort, 0);
    }
    copying::copy(&mut table[..entries], &row[..entries]);
    copying::copy(&mut starts[..count], &begins[..count]);
    copying::copy(&mut lengths[..count], &sizes[..count]);
    read
}

// The reader over rows of its own, of E entries and of N names, which suffice for the text.
fn read_with<const E: usize, const N: usize>(
    text: &[u8],
    table: &mut [u16],
    starts: &mut [u32],
    lengths: &mut [u32],
) -> TextRead
    requires rows { Rows (length text.now) (replicate E 0) (replicate N 0) (replicate N 0) }
    requires entries_few { E ≤ kept_entries }
    ensures { ReadsText text.now table.old starts.old lengths.old result table.new starts.new lengths.new }
{
    let mut row = [0u16; E];
    let mut begins = [0u32; N];
    let mut sizes = [0u32; N];
    let kept = keep_text(text, &mut row, &mut begins, &mut sizes);
    read_in(text, kept, &row, &begins, &sizes, table, starts, lengths)
}

// The reader: t, n, the number of the table's entries and Q, with the table and the start and length of each name at the fronts
// of the lent rows; or the first refusal in the documents' order, which changes nothing.
pub fn read_text(
    text: &[u8],
    table: &mut [u16],
    starts: &mut [u32],
    lengths: &mut [u32],
) -> TextRead
    ensures { ReadsText text.now table.old starts.old lengths.old result table.new starts.new lengths.new }
{
    if text.len() <= SMALL_TEXT {
        return read_with::<SMALL_TEXT, SMALL_TEXT>(text, table, starts, lengths);
    }
    read_with::<KEPT_ENTRIES, MAX_NAMES>(text, table, starts, lengths)
}
