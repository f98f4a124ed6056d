// What a row holds: where the draft's rules end, its table and its numbers, and how long a row must be.
ghost use Rattle.std.specs.Prelude.{◌≡◌};
ghost use Rattle.drafts.specs.Row.{draft_room};
ghost use Rattle.drafts.specs.Edits.{open_row, opening};
ghost use Rattle.drafts.specs.Reading.{ShowsTable, CountsDraft, PlacesTable};

use super::blocks::{DRAFT_ROOM, held};
use super::{DraftCounts, FoundDraft, TablePlace};
use grammar::Cause;

// No row of a draft may be shorter.
pub fn draft_room() -> usize
    ensures { result ≡ draft_room }
{
    DRAFT_ROOM
}

pub fn open_draft(draft: &[u16]) -> FoundDraft
    ensures { result ≡ opening (open_row draft.now) }
{
    if draft.len() < DRAFT_ROOM {
        return FoundDraft::Shut(Cause::BufferTooShort, 0);
    }
    match held(draft, 0) {
        Some(end) => FoundDraft::Opened(end),
        None => FoundDraft::Shut(Cause::NotPresent, 0),
    }
}

// The table of the draft that the row holds, as that part of the row; an empty part if it holds none.
pub fn draft_table(draft: &[u16]) -> &[u16]
    ensures { ShowsTable draft.now result.now }
{
    match open_draft(draft) {
        FoundDraft::Shut(_cause, _at) => &draft[..0],
        FoundDraft::Opened(end) => &draft[3..2 + end],
    }
}

// t, n, and how many rules, entries and states the draft has: a rule has two entries and one state more than codes.
pub fn draft_counts(draft: &[u16]) -> DraftCounts
    ensures { CountsDraft draft.now result }
{
    let opened = open_draft(draft);
    match opened {
        FoundDraft::Shut(cause, at) => {
            return DraftCounts::Refused(cause, at);
        }
        FoundDraft::Opened(end) => {
            let terminals = usize::from(draft[0]);
            let nonterminals = usize::from(draft[1]);
            let rules = usize::from(draft[2]) - 1;
            let entries = end - 1;
            let states = entries + 4 - rules;
            return DraftCounts::Counts {
                terminals,
                nonterminals,
                rules,
                entries,
                states,
            };
        }
    }
}

// Where the draft's table stands in the row.
pub fn table_place(draft: &[u16]) -> TablePlace
    ensures { PlacesTable draft.now result }
{
    let opened = open_draft(draft);
    match opened {
        FoundDraft::Shut(cause, at) => {
            return TablePlace::Refused(cause, at);
        }
        FoundDraft::Opened(end) => {
            let entries = end - 1;
            return TablePlace::Stands { start: 3, entries };
        }
    }
}
