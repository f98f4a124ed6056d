// Reads two lines back: a grammar's text and the lines to the two strings, or to the first refusal.
// Lines and strings may be of any length, so nothing of them is kept: both values are checked and their letters counted, and
// a second pass writes.

#![tactic(auto)]

mod pieces;
mod reading;
mod values;

ghost use Rattle.std.specs.Prelude.{◌≤◌, length, replicate};
ghost use Rattle.text.specs.Spelled.{spelled};
ghost use Rattle.text_read.specs.Lines.{kept_entries};
ghost use Rattle.text_read.specs.Texts.{Rows};
ghost use Rattle.readings.specs.Promise.{ReadsBack};
ghost use Rattle.readings_read.specs.Words.{Named};
ghost use Rattle.readings_read.specs.Lines.{BackTold, GrammarChecked};

use grammar::{Cause, MAX_NAMES};
use readings::ReadBack;
use text::TextRead;
use text_read::{KEPT_ENTRIES, SMALL_TEXT};

// The states of a grammar without rules. Each rule has two entries more than codes, and one state more, so the entries and
// these, less the states, are the rules.
const NO_RULES: usize = 4;

// What is wrong with what stands between two spaces: a name that is not known, or no word, which counts first.
#[derive(Clone, Copy)]
pub enum WordFault {
    Unknown,
    Malformed,
}

// A line: where its value starts, and how many letters it has.
#[derive(Drop)]
pub enum Line {
    Said { start: usize, count: usize },
    Fault(Cause, usize),
}

// Both lines: where their values stand, and how many letters they have.
#[derive(Drop)]
pub enum Lines {
    Said {
        first: usize,
        first_end: usize,
        left: usize,
        second: usize,
        second_end: usize,
        right: usize,
    },
    Fault(Cause, usize),
}

// The two lines in a grammar, whose names are planted first, so that each name of the lines is found by its bits.
fn read_planted(
    text: &[u8],
    starts: &[u32],
    lengths: &[u32],
    t: usize,
    count: usize,
    lines: &[u8],
    left: &mut [u32],
    right: &mut [u32],
) -> ReadBack
    requires { Named t count text.now starts.now lengths.now }
    ensures { BackTold t count (spelled text.now starts.now lengths.now) lines.now left.old right.old result left.new right.new }
{
    let mut links = [0u16; 2 * MAX_NAMES];
    lexicon::plant(text, starts, lengths, &mut links);
    reading::read_lines(text, starts, lengths, &links, t, count, lines, left, right)
}

// The two lines, after the grammar's text.
fn back_in(
    read: TextRead,
    text: &[u8],
    starts: &[u32],
    lengths: &[u32],
    lines: &[u8],
    left: &mut [u32],
    right: &mut [u32],
) -> ReadBack
    requires { GrammarChecked text.now read starts.now lengths.now }
    ensures { ReadsBack text.now lines.now left.old right.old result left.new right.new }
{
    match read {
        TextRead::Refused(cause, at) => ReadBack::GrammarRefused(cause, at),
        TextRead::Read {
            terminals,
            nonterminals,
            entries,
            states,
        } => {
            let m = terminals + nonterminals;
            let rules = entries + NO_RULES - states;
            read_planted(
                text,
                &starts[..m],
                &lengths[..m],
                terminals,
                rules,
                lines,
                left,
                right,
            )
        }
    }
}

// Reading back over rows of its own, of E entries and of N names, which suffice for the grammar's text.
fn back_with<const E: usize, const N: usize>(
    text: &[u8],
    lines: &[u8],
    left: &mut [u32],
    right: &mut [u32],
) -> ReadBack
    requires rows { Rows (length text.now) (replicate E 0) (replicate N 0) (replicate N 0) }
    requires entries_few { E ≤ kept_entries }
    ensures { ReadsBack text.now lines.now left.old right.old result left.new right.new }
{
    let mut row = [0u16; E];
    let mut starts = [0u32; N];
    let mut lengths = [0u32; N];
    let read = text_read::check_text(text, &mut row, &mut starts, &mut lengths);
    back_in(read, text, &starts, &lengths, lines, left, right)
}

// Reading back: a grammar's text and the two lines to the two strings, at the fronts of the lent rows; or the first refusal,
// which changes nothing.
pub fn read_back(text: &[u8], lines: &[u8], left: &mut [u32], right: &mut [u32]) -> ReadBack
    ensures { ReadsBack text.now lines.now left.old right.old result left.new right.new }
{
    if text.len() <= SMALL_TEXT {
        return back_with::<SMALL_TEXT, SMALL_TEXT>(text, lines, left, right);
    }
    back_with::<KEPT_ENTRIES, MAX_NAMES>(text, lines, left, right)
}
