// The table check: any t, n and table to the record of a checked grammar, or to the first refusal.

#![tactic(auto)]

mod earlier;
mod reading;

ghost use Rattle.std.specs.Prelude.{◌≡◌, ◌+◌, ◌≤◌, length};
ghost use Rattle.std.proofs.Math.Seq.{paste};
ghost use Rattle.grammar.specs.Basics.{choose};
ghost use Rattle.grammar.specs.Limits.{limits};
ghost use Rattle.grammar.specs.Record.{record_of};
ghost use Rattle.grammar.specs.Refusal.{refused};
ghost use Rattle.grammar.specs.TableCheck.{in_range, stored_table, check_table, table_checked, TableAnswer};
ghost use Rattle.table_check.specs.Clauses.{rule_read, ruleless, Before, next_or_full};

use earlier::repeats;
pub use earlier::same_rule;
use grammar::{
    Cause, CheckedGrammar, MAX_NONTERMINALS, MAX_RULES, MAX_STATES, MAX_TERMINALS, TableChecked,
    TableVerdict,
};
use live::has_sentence;
pub use reading::read_rule;

// One rule of the table: its length, or the refusal.
#[derive(Drop)]
pub enum RuleRead {
    Length(usize),
    Fault(Cause, usize),
}

fn in_range(t: usize, n: usize) -> bool
    ensures { result ≡ in_range limits t n }
{
    if MAX_TERMINALS < t {
        return false;
    }
    if n < 1 {
        return false;
    }
    n <= MAX_NONTERMINALS
}

// Causes 7, 2, 3, 4, 2, 5, 6, 8 for the rule at an offset; its length.
fn next_rule<'a>(
    table: &'a [u16],
    offsets: &'a [u16; MAX_RULES],
    lefts: &'a [u16; MAX_RULES],
    t: u16,
    n: u16,
    count: usize,
    states: usize,
    at: usize,
) -> RuleRead
    requires { Before table.now offsets.now lefts.now count states at }
    ensures { result ≡ rule_read (next_or_full t n table.now count at) }
{
    if MAX_RULES <= count {
        return RuleRead::Fault(Cause::TooManyRules, at);
    }
    let read = read_rule(table, t, n, at);
    let RuleRead::Length(k) = read else {
        return read;
    };
    if repeats(table, offsets, lefts, count, at, k) {
        return RuleRead::Fault(Cause::RuleRepeated, at);
    }
    if MAX_STATES < states + k + 1 {
        return RuleRead::Fault(Cause::TooManyStates, at);
    }
    RuleRead::Length(k)
}

// The record of a grammar without rules.
fn without_rules(t: u16, n: u16) -> CheckedGrammar
    ensures { result ≡ record_of (ruleless t n) }
{
    CheckedGrammar {
        terminals: t,
        nonterminals: n,
        count: 0,
        used: 0,
        states: 4,
        offsets: [0u16; MAX_RULES],
        lefts: [0u16; MAX_RULES],
        lengths: [0u16; MAX_RULES],
        codes: [0u16; MAX_STATES],
    }
}

// The codes of a right side, copied from that part of the table to a place in the row.
fn put_codes(codes: &mut [u16; MAX_STATES], used: usize, right: &[u16])
    requires { (length codes.old ≡ limits.max_states) × (used + length right.now ≤ limits.max_states) }
    ensures { codes.new ≡ paste codes.old used right.now (length right.now) }
{
    copying::copy(&mut codes[used..used + right.len()], right);
}

fn refuse(cause: Cause, at: usize) -> TableChecked
    ensures { result ≡ table_checked (refused cause at) }
{
    let none = without_rules(0, 0);
    TableChecked {
        verdict: TableVerdict::Refused(cause, at),
        grammar: none,
    }
}

// 1 to 8: the record of the grammar that the table stores, or the first refusal in document 01's order with an empty record; then 19
// for a grammar without a sentence, where the whole check is asked for. One function does all, so that the record is copied only as it
// is returned.
pub fn check_up_to(t: usize, n: usize, table: &[u16], whole: bool) -> TableChecked
    ensures { result ≡ table_checked (choose whole (check_table limits t n table.now) (stored_table limits t n table.now)) }
{
    if !in_range(t, n) {
        return refuse(Cause::OutOfRange, 0);
    }
    let terminals = t as u16;
    let nonterminals = n as u16;
    let mut g = without_rules(terminals, nonterminals);
    let mut at = 0;
    while at < table.len() {
        let count = g.count;
        let used = g.used;
        let states = g.states;
        let read = next_rule(
            table,
            &g.offsets,
            &g.lefts,
            terminals,
            nonterminals,
            count,
            states,
            at,
        );
        match read {
            RuleRead::Fault(cause, place) => {
                return refuse(cause, place);
            }
            RuleRead::Length(k) => {
                put_codes(&mut g.codes, used, &table[at + 2..at + 2 + k]);
                g.offsets[count] = at as u16;
                g.lefts[count] = table[at];
                g.lengths[count] = k as u16;
                g.count = count + 1;
                g.used = used + k;
                g.states = states + k + 1;
                at = at + 2 + k;
            }
        }
    }
    if whole {
        let count = g.count;
        let used = g.used;
        if !has_sentence(&g.lefts, &g.lengths, &g.codes, count, used) {
            return refuse(Cause::NoSentence, 0);
        }
    }
    TableChecked {
        verdict: TableVerdict::Passed,
        grammar: g,
    }
}

// The table check.
pub fn check_table(t: usize, n: usize, table: &[u16]) -> TableChecked
    ensures { TableAnswer t n table.now result }
{
    check_up_to(t, n, table, true)
}
