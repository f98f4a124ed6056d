// The trees of one sentence, from a table: the refusals in their order, then the answer of crate sentence.

#![tactic(auto)]

ghost use Rattle.std.specs.Prelude.{◌≡◌, ◌*◌, ◌≤◌, ◌<◌, length, replicate, MatchOption};
ghost use Rattle.grammar.specs.Basics.{over};
ghost use Rattle.grammar.specs.Record.{IsRecord};
ghost use Rattle.trees.specs.Trees.{row_fault, max_row, places};
ghost use Rattle.trees.specs.Promise.{FindsTrees, TreesRoomAnswer};
ghost use Rattle.sentence.specs.Answered.{Judges};

use clearing::clear;
use grammar::{Cause, CheckedGrammar, TableVerdict};
use sentence::{ListTooShort, Outcome, judge};
use trees::{MAX_ROW, PLACES, TreesFound, TreesRoom};

// The first place at fault: a code that is no terminal, or a terminal too many.
fn row_fault(t: u16, row: &[u16]) -> Option<usize>
    ensures { let fault = row_fault t max_row row.now in MatchOption result (length row.now ≤ fault) (λ i. (i ≡ fault) × (i < length row.now)) }
{
    for (i, &x) in row.iter().enumerate() {
        if MAX_ROW <= i {
            return Some(i);
        }
        if x < 1 {
            return Some(i);
        }
        if t < x {
            return Some(i);
        }
    }
    None
}

// The answer for a checked grammar and row; the work row's entries are 0 afterwards.
fn judge_in(
    g: &CheckedGrammar,
    row: &[u16],
    work: &mut [u32],
    list: &mut [u16],
) -> Result<Outcome, ListTooShort>
    requires fact { IsRecord g.now }
    requires states_in_bounds { (places * places * g.now.states ≤ length work.old) × (length row.now < places) }
    ensures judges { Judges g.now row.now list.old list.new result }
    ensures work_after { work.new ≡ over (replicate (places * places * g.now.states) 0) work.old }
{
    let states = g.states;
    let m = row.len() + 1;
    let used = states * m * m;
    clear(work, used);
    let outcome = judge(g, row, &mut work[..used], list);
    let cells = PLACES * PLACES * states;
    clear(work, cells);
    outcome
}

// No tree, one with its rules in front of the list and how many they are, or several; or the first refusal.
pub fn find_trees(
    t: usize,
    n: usize,
    table: &[u16],
    row: &[u16],
    work: &mut [u32],
    list: &mut [u16],
) -> TreesFound
    ensures { FindsTrees t n table.now row.now work.old list.old result work.new list.new }
{
    let checked = table_check::check_table(t, n, table);
    let verdict = checked.verdict;
    match verdict {
        TableVerdict::Refused(cause, at) => {
            return TreesFound::Refused(cause, at);
        }
        TableVerdict::Passed => {
            let g = &checked.grammar;
            if let Some(fault) = row_fault(g.terminals, row) {
                return TreesFound::Refused(Cause::RowWrong, fault);
            }
            if work.len() < PLACES * PLACES * g.states {
                return TreesFound::Refused(Cause::BufferTooShort, 0);
            }
            match judge_in(g, row, work, list) {
                Ok(Outcome::Nothing) => {
                    return TreesFound::Nothing;
                }
                Ok(Outcome::One(k)) => {
                    return TreesFound::One(k);
                }
                Ok(Outcome::Several) => {
                    return TreesFound::Several;
                }
                Err(ListTooShort) => {
                    return TreesFound::Refused(Cause::BufferTooShort, 0);
                }
            }
        }
    }
}

// How long the work row must be; or the table's first refusal.
pub fn trees_room(t: usize, n: usize, table: &[u16]) -> TreesRoom
    ensures { TreesRoomAnswer t n table.now result }
{
    let checked = table_check::check_table(t, n, table);
    let verdict = checked.verdict;
    match verdict {
        TableVerdict::Refused(cause, at) => {
            return TreesRoom::Refused(cause, at);
        }
        TableVerdict::Passed => {
            return TreesRoom::Entries(PLACES * PLACES * checked.grammar.states);
        }
    }
}
