// One level of states: the first four, then rule by rule.
ghost use Rattle.std.specs.Prelude.{◌≡◌, ◌+◌, ◌<◌, get_or};
ghost use Rattle.grammar.specs.Limits.{limits};
ghost use Rattle.live.specs.Marks.{before, right_at};
ghost use Rattle.caller_rows.specs.Clauses.{start_of};
ghost use Rattle.caller_rule.specs.RuleRows.{Wide, RuleWritten};
ghost use Rattle.caller_rule.specs.Lent.{six_of, SameLoans};
ghost use Rattle.caller_rows.specs.LevelRows.{callers_of, Levelled, LevelWritten, RulesWritten};

use super::front::write_front;
use super::widths::{rule_states, segment_at};
use caller_rule::Rows;

// The states of one rule, from the rows of all rules; its codes begin at u.
fn write_one<'a>(
    i: usize,
    u: usize,
    low: u16,
    at: usize,
    lefts: &'a [u16],
    lengths: &'a [u16],
    codes: &'a [u16],
    count: usize,
    kinds: u16,
    first: &'a [u16],
    callers: &'a [u16],
    below: &'a [u16],
    widths: &'a [u16],
    ranks: &'a [u16],
    rows: &mut Rows<'_>,
)
    requires levelled { Levelled lefts.now lengths.now codes.now count kinds first.now callers.now below.now widths.now ranks.now }
    requires i_lt_count { (i < count) × (u ≡ before lengths.now i) × (low ≡ start_of lengths.now below.now i) × (at ≡ start_of lengths.now widths.now i) }
    requires wide { Wide limits.max_states (six_of rows.old) }
    ensures written { RuleWritten (i + 1) (right_at lengths.now codes.now i) kinds
        (callers_of lefts.now first.now widths.now callers.now i) ranks.now (get_or below.now i 0) low at (get_or lengths.now i 0 + 1)
        (six_of rows.old)
        (six_of rows.new) }
    ensures same_loans { SameLoans rows.old rows.new }
{
    let k = usize::from(lengths[i]);
    let w = usize::from(widths[i]);
    let from = segment_at(first, lefts[i]);
    let e = u + k;
    let to = from + w;
    caller_rule::write_rule(
        (i + 1) as u16,
        &codes[u..e],
        kinds,
        &callers[from..to],
        ranks,
        below[i],
        low,
        at,
        rows,
    );
}

// The states of all rules but rule 0.
fn write_rules<'a>(
    lefts: &'a [u16],
    lengths: &'a [u16],
    codes: &'a [u16],
    count: usize,
    kinds: u16,
    first: &'a [u16],
    callers: &'a [u16],
    below: &'a [u16],
    widths: &'a [u16],
    ranks: &'a [u16],
    rows: &mut Rows<'_>,
)
    requires levelled { Levelled lefts.now lengths.now codes.now count kinds first.now callers.now below.now widths.now ranks.now }
    requires wide { Wide limits.max_states (six_of rows.old) }
    ensures written { RulesWritten lefts.now lengths.now codes.now kinds first.now callers.now below.now widths.now ranks.now count
        (six_of rows.old)
        (six_of rows.new) }
    ensures same_loans { SameLoans rows.old rows.new }
{
    let mut at = 4;
    let mut low = 4;
    let mut u = 0;
    for i in 0..count {
        write_one(
            i, u, low, at, lefts, lengths, codes, count, kinds, first, callers, below, widths,
            ranks, rows,
        );
        let k = lengths[i];
        at += rule_states(k, widths[i]);
        low += (k + 1) * below[i];
        u += usize::from(k);
    }
}

// All states of a level, from the callers of the level below, which has `kinds` states.
pub fn write_level<'a>(
    lefts: &'a [u16],
    lengths: &'a [u16],
    codes: &'a [u16],
    count: usize,
    kinds: u16,
    first: &'a [u16],
    callers: &'a [u16],
    below: &'a [u16],
    widths: &'a [u16],
    ranks: &'a [u16],
    rows: &mut Rows<'_>,
)
    requires levelled { Levelled lefts.now lengths.now codes.now count kinds first.now callers.now below.now widths.now ranks.now }
    requires wide { Wide limits.max_states (six_of rows.old) }
    ensures written { LevelWritten lefts.now lengths.now codes.now kinds first.now callers.now below.now widths.now ranks.now count
        (six_of rows.old)
        (six_of rows.new) }
    ensures same_loans { SameLoans rows.old rows.new }
{
    write_front(kinds, ranks, rows);
    write_rules(
        lefts, lengths, codes, count, kinds, first, callers, below, widths, ranks, rows,
    );
}
