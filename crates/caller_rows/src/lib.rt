// The rows of a checked grammar's moves with callers: level by level, each from the level below it.
//
// The chains of callers of a rule at one level are the states of the level below that stand before its left side, in their order;
// a state's class is the number, at the level below, of the state that calls it, or of what it is itself with its farthest caller
// dropped.

#![tactic(auto)]

mod front;
mod level;
mod next;
mod ranks;
mod widths;

ghost use Rattle.std.specs.Prelude.{ℕ, ◌+◌, ◌*◌, ◌≤◌, ◌<◌, length, get_or, take};
ghost use Rattle.grammar.specs.Limits.{limits};
ghost use Rattle.grammar.specs.Grammar.{Grammar};
ghost use Rattle.moves.specs.Tables.{tables, Sorted};
ghost use Rattle.caller_rows.specs.Levels.{written_from, Sizable, Reaches};
ghost use Rattle.caller_rows.specs.Rows.{Begun, BuiltWith};

use grammar::{MAX_RULES, MAX_STATES};
use live::live_rules;
use moves::CLASSES;
use next::add_level;

// How many states there are, and how many closing classes. More states than MAX_STATES: the rows are not those of the moves.
#[derive(Drop)]
pub struct Built {
    pub states: usize,
    pub kinds: u16,
}

// The levels above the items up to m callers, or up to the first with too many states. Each rule has one chain of no callers, and its
// rank is 0.
fn add_levels<'a>(
    lefts: &'a [u16; MAX_RULES],
    lengths: &'a [u16; MAX_RULES],
    codes: &'a [u16; MAX_STATES],
    count: usize,
    n: u16,
    items: usize,
    m: usize,
    live: &'a [u8; MAX_RULES],
    ahead: &mut [u16; MAX_STATES],
    number: &mut [u16; MAX_STATES],
    member: &mut [u16; MAX_STATES],
    target: &mut [u16; MAX_STATES],
    after: &mut [u16; MAX_STATES],
) -> Built
    requires { (G : Grammar) × Sizable G 0 (written_from G n count lefts.now lengths.now codes.now) live.now items ahead.old }
    ensures { (G : Grammar) → Sizable G 0 (written_from G n count lefts.now lengths.now codes.now) live.now items ahead.old
        → Reaches G m result.states result.kinds ahead.new number.new member.new target.new after.new }
{
    let mut below = [1u16; MAX_RULES];
    let mut ranks = [0u16; MAX_STATES];
    let mut kinds = 0;
    let mut q = items;
    for _ in 0..m {
        kinds = q as u16;
        q = add_level(
            lefts, lengths, codes, count, n, live, q, &mut below, &mut ranks, ahead, number,
            member, target, after,
        );
        if MAX_STATES < q {
            return Built { states: q, kinds };
        }
    }
    Built { states: q, kinds }
}

// Sorts the first q states by the class that leads to them.
fn sort_targets(target: &[u16], q: usize, kinds: u16, first: &mut [u16], targets: &mut [u16])
    requires q_le_max_states { (q ≤ limits.max_states) × (q ≤ length target.now) × (q ≤ length targets.old) }
    requires kinds_le_max_states { (kinds ≤ limits.max_states) × (2 * kinds + 1 < length first.old) }
    requires by_index { (p : ℕ) → p < q → get_or target.now p 0 ≤ 2 * kinds + 1 }
    ensures { Sorted (take q target.now) (2 * kinds + 1) targets.old first.new targets.new }
{
    let laid = 2 * usize::from(kinds) + 1;
    moves::sort(&target[..q], laid, first, targets);
}

// The rows with m callers, m at least 1, of the checked grammar whose columns these are, with n nonterminals and q items, where `ahead`
// has the codes ahead of the items, from crate moves. A row of fewer entries than MAX_STATES is not cleared behind them.
pub fn build<'a>(
    lefts: &'a [u16; MAX_RULES],
    lengths: &'a [u16; MAX_RULES],
    codes: &'a [u16; MAX_STATES],
    count: usize,
    used: usize,
    n: u16,
    q: usize,
    m: usize,
    ahead: &mut [u16; MAX_STATES],
    number: &mut [u16; MAX_STATES],
    member: &mut [u16; MAX_STATES],
    target: &mut [u16; MAX_STATES],
    first: &mut [u16; CLASSES],
    targets: &mut [u16; MAX_STATES],
    after: &mut [u16; MAX_STATES],
) -> Built
    requires le_m { 1 ≤ m }
    requires begun { (G : Grammar) × Begun G n q count used lefts.now lengths.now codes.now ahead.old }
    ensures { (G : Grammar) → Begun G n q count used lefts.now lengths.now codes.now ahead.old → BuiltWith G m result
        (tables ahead.new number.new member.new target.new first.new targets.new after.new) }
{
    let live = live_rules(lefts, lengths, codes, count, used);
    let b = add_levels(
        lefts,
        lengths,
        codes,
        count,
        n,
        q,
        m,
        &live.rules,
        ahead,
        number,
        member,
        target,
        after,
    );
    let states = b.states;
    if MAX_STATES < states {
        return b;
    }
    sort_targets(target, states, b.kinds, first, targets);
    b
}
