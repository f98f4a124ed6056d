// A rule tried against the draft, and written past its last one.
ghost use Rattle.std.specs.Prelude.{◌≡◌, take};
ghost use Rattle.grammar.specs.Refusal.{done};
ghost use Rattle.grammar.specs.Table.{decode, rule_at};
ghost use Rattle.grammar.specs.TableCheck.{is_among};
ghost use Rattle.table_check.specs.Clauses.{rule_read, next_or_full};
ghost use Rattle.drafts.specs.Edits.{open_row, Leading, Led, Appendable, appended, add_read, entries_read};

use super::edits::put_entries;
use grammar::{Cause, MAX_LENGTH, MAX_RULES, MAX_STATES};
use table_check::{RuleRead, read_rule, same_rule};

// No rule has more entries: a left code, a length, the codes.
const LONGEST: usize = 2 + MAX_LENGTH;

// The longest table, and a rule past it.
const TRY_ROOM: usize = MAX_RULES + MAX_STATES + LONGEST;

fn at_most(m: usize) -> usize
    ensures { result ≡ entries_read m }
{
    m.min(LONGEST)
}

// Does one of the rules up to an offset equal the one of length k there?
fn stands_before(table: &[u16], at: usize, k: usize) -> bool
    requires { Leading table.now at k }
    ensures { result ≡ is_among (rule_at table.now at k) (decode (take at table.now)) }
{
    let mut o = 0;
    while o < at {
        let m = usize::from(table[o + 1]);
        if same_rule(table, o, m, at, k) {
            return true;
        }
        o = o + 2 + m;
    }
    false
}

// Causes 7, 2, 3, 4, 2, 5, 6, 8 for the rule at an offset, which so many rules lead to; its length. A rule has two entries and one
// state more than codes.
fn next_rule(table: &[u16], t: u16, n: u16, count: usize, at: usize) -> RuleRead
    requires { Led table.now count at }
    ensures { result ≡ rule_read (next_or_full t n table.now count at) }
{
    if MAX_RULES <= count {
        return RuleRead::Fault(Cause::TooManyRules, at);
    }
    let read = read_rule(table, t, n, at);
    let RuleRead::Length(k) = read else {
        return read;
    };
    if stands_before(table, at, k) {
        return RuleRead::Fault(Cause::RuleRepeated, at);
    }
    let states = at + 4 - count;
    if MAX_STATES < states + k + 1 {
        return RuleRead::Fault(Cause::TooManyStates, at);
    }
    RuleRead::Length(k)
}

// The faults of the rule that the entries begin with, past the draft's last one; its length.
pub fn try_rule(draft: &[u16], entries: &[u16], end: usize) -> RuleRead
    requires { open_row draft.now ≡ done end }
    ensures { result ≡ rule_read (add_read draft.now entries.now) }
{
    let mut table = [0u16; TRY_ROOM];
    let at = end - 1;
    let to = 2 + end;
    put_entries(&mut table, 0, &draft[3..to], at);
    let m = at_most(entries.len());
    put_entries(&mut table, at, entries, m);
    let total = at + m;
    let t = draft[0];
    let n = draft[1];
    let count = usize::from(draft[2]) - 1;
    next_rule(&table[..total], t, n, count, at)
}

pub fn append(row: &mut [u16], end: usize, entries: &[u16], k: usize)
    requires { Appendable row.old end entries.now k }
    ensures { row.new ≡ appended row.old end entries.now k }
{
    let m = 2 + k;
    put_entries(row, 2 + end, entries, m);
    row[2] = row[2] + 1;
}
