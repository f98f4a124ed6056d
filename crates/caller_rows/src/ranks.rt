// Which states stand before a nonterminal, and the place of a state among those before the same one.
ghost use Rattle.std.specs.Prelude.{◌≡◌, ◌+◌, ◌≤◌, length, get_or};
ghost use Rattle.grammar.specs.Limits.{limits};
ghost use Rattle.caller_rows.specs.Clauses.{Filled, Under, key_of, key_at, Rankable, SegmentRanked, Segments, RanksWritten, RanksPassed};

use grammar::{MAX_STATES, NONTERMINAL_BASE};

// The number of a nonterminal, or n + 1.
fn key_of(x: u16, n: u16) -> u16
    requires { n ≤ limits.max_nonterminals }
    ensures { result ≡ key_of n x }
{
    if NONTERMINAL_BASE <= x {
        return x - NONTERMINAL_BASE;
    }
    n + 1
}

// Of each state the number of the nonterminal ahead; state 0 stands before S', which has number n; n + 1 is for no nonterminal.
pub fn write_keys<'a>(ahead: &'a [u16], q: usize, n: u16, keys: &mut [u16])
    requires { (1 ≤ q) × (q ≤ length ahead.now) × (q ≤ length keys.old) × (n ≤ limits.max_nonterminals) }
    ensures { Filled keys.old keys.new q (key_at ahead.now n) }
{
    for p in 0..q {
        keys[p] = key_of(ahead[p], n);
    }
    keys[0] = n;
}

// Of the states of one segment their places in it.
fn rank_segment<'a>(callers: &'a [u16], from: usize, to: usize, ranks: &mut [u16])
    requires rankable { Rankable callers.now to }
    requires from_le_to { (from ≤ to) × (limits.max_states ≤ length ranks.old) }
    ensures { SegmentRanked callers.now from to ranks.old ranks.new }
{
    for k in from..to {
        let p = usize::from(callers[k]);
        ranks[p] = (k - from) as u16;
    }
}

// Of each state that is listed its place among those before the same nonterminal.
fn write_ranks<'a>(first: &'a [u16], callers: &'a [u16], n: u16, ranks: &mut [u16])
    requires segments { Segments first.now callers.now (n + 1) }
    requires max_states_in_bounds { limits.max_states ≤ length ranks.old }
    ensures { RanksWritten first.now callers.now (n + 1) ranks.old ranks.new }
{
    let kinds = usize::from(n) + 1;
    for b in 0..kinds {
        let from = usize::from(first[b]);
        let to = usize::from(first[b + 1]);
        rank_segment(callers, from, to, ranks);
    }
}

// Of each state the rank of what it is at the level below.
fn pass_ranks<'a>(ranks: &'a [u16], down: &'a [u16], q: usize, passed: &mut [u16])
    requires { (q ≤ length down.now) × (q ≤ length passed.old) × Under down.now q limits.max_states × (limits.max_states ≤ length ranks.now) }
    ensures { Filled passed.old passed.new q (λ p. get_or ranks.now (get_or down.now p 0) 0) }
{
    for p in 0..q {
        passed[p] = ranks[usize::from(down[p])];
    }
}

// The two together: for each of the q states of a level, where `down` is its number at the level below.
pub fn next_ranks<'a>(
    first: &'a [u16],
    callers: &'a [u16],
    n: u16,
    down: &'a [u16],
    q: usize,
    ranks: &mut [u16],
)
    requires segments { Segments first.now callers.now (n + 1) }
    requires q_in_bounds { (q ≤ length down.now) × (q ≤ length ranks.old) × Under down.now q limits.max_states }
    ensures { RanksPassed first.now callers.now (n + 1) down.now q ranks.old ranks.new }
{
    let mut places = [0u16; MAX_STATES];
    write_ranks(first, callers, n, &mut places);
    pass_ranks(&places, down, q, ranks);
}
