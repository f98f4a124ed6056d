// What every entry over triples, and two_sides, does first: the refusals up to [11]'s 8, then the rows of moves, in rows that the caller
// lends.

#![tactic(auto)]

ghost use Rattle.std.specs.Prelude.{◌≡◌, ℕ, ◌≤◌};
ghost use Rattle.grammar.specs.Grammar.{Grammar};
ghost use Rattle.grammar.specs.declared.TableVerdict.TheVariants.{Refused};
ghost use Rattle.automaton.specs.Callers.{most_callers};
ghost use Rattle.moves.specs.Tables.{tables};
ghost use Rattle.caller_rows.specs.Rows.{Begun};
ghost use Rattle.prepared.specs.Prepared.{IsChecked, PreparesFor, Prepares};

use grammar::{Cause, MAX_CALLERS, MAX_RULES, MAX_STATES, TableVerdict};
use moves::CLASSES;

// A refusal up to [11]'s 8, or that there is none, and then t, the number of closing classes and Q with so many callers; with a refusal 0,
// 0 and 4.
#[derive(Drop)]
pub struct Prepared {
    pub verdict: TableVerdict,
    pub terminals: u16,
    pub kinds: u16,
    pub states: usize,
}

fn stopped(cause: Cause, at: usize) -> Prepared
    ensures { (result.verdict ≡ Refused cause at) × (result.states ≡ 4) }
{
    Prepared {
        verdict: TableVerdict::Refused(cause, at),
        terminals: 0,
        kinds: 0,
        states: 4,
    }
}

// With callers: the rows of crate caller_rows, or 8 where they have too many states.
fn add_callers<'a>(
    lefts: &'a [u16; MAX_RULES],
    lengths: &'a [u16; MAX_RULES],
    codes: &'a [u16; MAX_STATES],
    count: usize,
    used: usize,
    t: u16,
    n: u16,
    q: usize,
    callers: usize,
    ahead: &mut [u16; MAX_STATES],
    number: &mut [u16; MAX_STATES],
    member: &mut [u16; MAX_STATES],
    target: &mut [u16; MAX_STATES],
    first: &mut [u16; CLASSES],
    targets: &mut [u16; MAX_STATES],
    after: &mut [u16; MAX_STATES],
) -> Prepared
    requires le_callers { (1 ≤ callers) × (callers ≤ most_callers) }
    requires t_value { (G : Grammar) × (t ≡ G.terminals) × Begun G n q count used lefts.now lengths.now codes.now ahead.old }
    ensures { (G : Grammar) → t ≡ G.terminals → Begun G n q count used lefts.now lengths.now codes.now ahead.old → PreparesFor G callers result
        (tables ahead.new number.new member.new target.new first.new targets.new after.new) }
{
    let b = caller_rows::build(
        lefts, lengths, codes, count, used, n, q, callers, ahead, number, member, target, first,
        targets, after,
    );
    if MAX_STATES < b.states {
        return stopped(Cause::TooManyStates, 0);
    }
    let kinds = b.kinds;
    let states = b.states;
    Prepared {
        verdict: TableVerdict::Passed,
        terminals: t,
        kinds,
        states,
    }
}

// The rows of the checked grammar whose columns these are: 21 first, then the rows of crate moves, or with callers those that are built
// from them.
fn prepare_rows<'a>(
    lefts: &'a [u16; MAX_RULES],
    lengths: &'a [u16; MAX_RULES],
    codes: &'a [u16; MAX_STATES],
    count: usize,
    used: usize,
    t: u16,
    n: u16,
    q: usize,
    callers: usize,
    ahead: &mut [u16; MAX_STATES],
    number: &mut [u16; MAX_STATES],
    member: &mut [u16; MAX_STATES],
    target: &mut [u16; MAX_STATES],
    first: &mut [u16; CLASSES],
    targets: &mut [u16; MAX_STATES],
    after: &mut [u16; MAX_STATES],
) -> Prepared
    requires { (G : Grammar) × IsChecked G t n q count used lefts.now lengths.now codes.now }
    ensures { (G : Grammar) → IsChecked G t n q count used lefts.now lengths.now codes.now → PreparesFor G callers result
        (tables ahead.new number.new member.new target.new first.new targets.new after.new) }
{
    if MAX_CALLERS < callers {
        return stopped(Cause::TooManyCallers, 0);
    }
    moves::build(
        lefts, lengths, codes, count, used, n, q, ahead, number, member, target, first, targets,
        after,
    );
    if 0 < callers {
        return add_callers(
            lefts, lengths, codes, count, used, t, n, q, callers, ahead, number, member, target,
            first, targets, after,
        );
    }
    let kinds = n + 1;
    Prepared {
        verdict: TableVerdict::Passed,
        terminals: t,
        kinds,
        states: q,
    }
}

// The table check, then 21 and 8, then the rows. The columns are lent from where the check left them, since a record that is handed on
// by value is copied.
pub fn prepare(
    t: usize,
    n: usize,
    table: &[u16],
    callers: usize,
    ahead: &mut [u16; MAX_STATES],
    number: &mut [u16; MAX_STATES],
    member: &mut [u16; MAX_STATES],
    target: &mut [u16; MAX_STATES],
    first: &mut [u16; CLASSES],
    targets: &mut [u16; MAX_STATES],
    after: &mut [u16; MAX_STATES],
) -> Prepared
    ensures { Prepares t n table.now callers result
        (tables ahead.new number.new member.new target.new first.new targets.new after.new) }
{
    let checked = table_check::check_table(t, n, table);
    let verdict = checked.verdict;
    match verdict {
        TableVerdict::Refused(cause, at) => {
            return stopped(cause, at);
        }
        TableVerdict::Passed => {
            let count = checked.grammar.count;
            let used = checked.grammar.used;
            let terminals = checked.grammar.terminals;
            let nonterminals = checked.grammar.nonterminals;
            let states = checked.grammar.states;
            return prepare_rows(
                &checked.grammar.lefts,
                &checked.grammar.lengths,
                &checked.grammar.codes,
                count,
                used,
                terminals,
                nonterminals,
                states,
                callers,
                ahead,
                number,
                member,
                target,
                first,
                targets,
                after,
            );
        }
    }
}
