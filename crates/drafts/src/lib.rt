// A grammar while it is edited: a draft with eight marks, in one lent row. specs/Row.antt says how the row holds it.

#![tactic(auto)]

mod adding;
mod blocks;
mod edits;
mod reading;

ghost use Rattle.drafts.specs.Draft.{mark, return, withdraw, add};
ghost use Rattle.drafts.specs.Promise.{EditsDraft, BeginsDraft};

use adding::{append, try_rule};
use blocks::{BLOCK, DRAFT_ROOM, copy_within, held};
use edits::{begin, remove, rule_place};
use grammar::{Cause, TableVerdict};
use reading::open_draft;
pub use reading::{draft_counts, draft_room, draft_table, table_place};
use table_check::{RuleRead, check_up_to};

// Marks are 1 to 8.
pub const MARKS: usize = 8;

// Done, or refused with a cause and its position.
#[derive(Drop)]
pub enum DraftAnswer {
    Done,
    Refused(Cause, usize),
}

// t, n, and how many rules, entries and states the draft has, or why the row holds none.
#[derive(Drop)]
pub enum DraftCounts {
    Counts {
        terminals: usize,
        nonterminals: usize,
        rules: usize,
        entries: usize,
        states: usize,
    },
    Refused(Cause, usize),
}

// Where in the row the draft's table stands, or why the row holds none.
#[derive(Drop)]
pub enum TablePlace {
    Stands { start: usize, entries: usize },
    Refused(Cause, usize),
}

// Where the draft's rules end in its block, or why the row holds no draft.
#[derive(Drop)]
pub enum FoundDraft {
    Opened(usize),
    Shut(Cause, usize),
}

// Keeps the draft's rules under a mark.
pub fn set_mark(draft: &mut [u16], number: usize) -> DraftAnswer
    ensures { EditsDraft draft.old (mark number) result draft.new }
{
    let opened = open_draft(draft);
    match opened {
        FoundDraft::Shut(cause, at) => {
            return DraftAnswer::Refused(cause, at);
        }
        FoundDraft::Opened(end) => {
            if number < 1 || MARKS < number {
                return DraftAnswer::Refused(Cause::NotPresent, number);
            }
            let to = 2 + number * BLOCK;
            copy_within(draft, 2, to, end);
            return DraftAnswer::Done;
        }
    }
}

// Brings back the rules that a mark keeps.
pub fn return_to_mark(draft: &mut [u16], number: usize) -> DraftAnswer
    ensures { EditsDraft draft.old (return number) result draft.new }
{
    let opened = open_draft(draft);
    match opened {
        FoundDraft::Shut(cause, at) => {
            return DraftAnswer::Refused(cause, at);
        }
        FoundDraft::Opened(_end) => {
            if number < 1 || MARKS < number {
                return DraftAnswer::Refused(Cause::NotPresent, number);
            }
            let Some(end) = held(draft, number) else {
                return DraftAnswer::Refused(Cause::NotPresent, number);
            };
            let from = 2 + number * BLOCK;
            copy_within(draft, from, 2, end);
            return DraftAnswer::Done;
        }
    }
}

// Withdraws a rule by its number: later ones move down.
pub fn withdraw_rule(draft: &mut [u16], number: usize) -> DraftAnswer
    ensures { EditsDraft draft.old (withdraw number) result draft.new }
{
    let opened = open_draft(draft);
    match opened {
        FoundDraft::Shut(cause, at) => {
            return DraftAnswer::Refused(cause, at);
        }
        FoundDraft::Opened(end) => {
            let cell = usize::from(draft[2]);
            if number < 1 || cell <= number {
                return DraftAnswer::Refused(Cause::NotPresent, number);
            }
            let place = rule_place(draft, number - 1);
            remove(draft, 2 + place, end);
            return DraftAnswer::Done;
        }
    }
}

// Begins a draft from t, n and a table, all marks empty.
pub fn new_draft(t: usize, n: usize, table: &[u16], draft: &mut [u16]) -> DraftAnswer
    ensures { BeginsDraft t n table.now draft.old result draft.new }
{
    let checked = check_up_to(t, n, table, false);
    let verdict = checked.verdict;
    match verdict {
        TableVerdict::Refused(cause, at) => {
            return DraftAnswer::Refused(cause, at);
        }
        TableVerdict::Passed => {
            if draft.len() < DRAFT_ROOM {
                return DraftAnswer::Refused(Cause::BufferTooShort, 0);
            }
            let g = checked.grammar;
            let cell = g.count + 1;
            begin(draft, t as u16, n as u16, cell as u16, table);
            return DraftAnswer::Done;
        }
    }
}

// Adds the rule at the front of some entries, past the draft's last one.
pub fn add_rule(draft: &mut [u16], entries: &[u16]) -> DraftAnswer
    ensures { EditsDraft draft.old (add entries.now) result draft.new }
{
    let opened = open_draft(draft);
    match opened {
        FoundDraft::Shut(cause, at) => {
            return DraftAnswer::Refused(cause, at);
        }
        FoundDraft::Opened(end) => {
            let read = try_rule(draft, entries, end);
            match read {
                RuleRead::Fault(cause, at) => {
                    return DraftAnswer::Refused(cause, at);
                }
                RuleRead::Length(k) => {
                    append(draft, end, entries, k);
                    return DraftAnswer::Done;
                }
            }
        }
    }
}
