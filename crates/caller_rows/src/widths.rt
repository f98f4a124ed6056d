// How many callers a rule has, and how many states a level.
ghost use Rattle.std.specs.Prelude.{◌≡◌, ℕ, ◌+◌, ◌-◌, ◌*◌, ◌≤◌, ◌<◌, ltb, length, get_or};
ghost use Rattle.grammar.specs.Basics.{choose};
ghost use Rattle.grammar.specs.Limits.{limits};
ghost use Rattle.grammar.specs.Grammar.{Grammar};
ghost use Rattle.caller_rows.specs.Clauses.{Filled, Segmented, width_of, width_at, most_product, start_of};
ghost use Rattle.caller_rows.specs.Levels.{sized_by, Sizable, Sized};

use super::ranks::write_keys;
use grammar::{MAX_NONTERMINALS, MAX_RULES, MAX_STATES, NONTERMINAL_BASE};

// Where the states before each nonterminal begin, those before S' and before none, and where these end.
pub const STARTS: usize = MAX_NONTERMINALS + 3;

// Where the callers of a rule begin.
pub fn segment_at<'a>(first: &'a [u16], left: u16) -> usize
    requires { Segmented first.now left }
    ensures { result ≡ get_or first.now (left - limits.nonterminal_base) 0 }
{
    let b = usize::from(left - NONTERMINAL_BASE);
    usize::from(first[b])
}

// How many callers a rule has: the length of its left side's segment.
fn width_of<'a>(first: &'a [u16], left: u16) -> u16
    requires { Segmented first.now left }
    ensures { result ≡ width_of first.now left }
{
    let b = usize::from(left - NONTERMINAL_BASE);
    first[b + 1] - first[b]
}

// The same, but 0 if the rule is not live.
fn live_width<'a>(on: u8, first: &'a [u16], left: u16) -> u16
    requires { Segmented first.now left }
    ensures { result ≡ choose (ltb 0 on) (width_of first.now left) 0 }
{
    if 0 < on {
        return width_of(first, left);
    }
    0
}

// Of each rule the number of its callers, 0 if it is not live.
fn write_widths<'a>(
    lefts: &'a [u16],
    count: usize,
    live: &'a [u8],
    first: &'a [u16],
    widths: &mut [u16],
)
    requires count_in_bounds { (count ≤ length lefts.now) × (count ≤ length live.now) × (count ≤ length widths.old) }
    requires by_index { (i : ℕ) → i < count → Segmented first.now (get_or lefts.now i 0) }
    ensures { Filled widths.old widths.new count (width_at lefts.now live.now first.now) }
{
    for i in 0..count {
        widths[i] = live_width(live[i], first, lefts[i]);
    }
}

// The states of a rule with k symbols and w callers.
pub fn rule_states(k: u16, w: u16) -> usize
    ensures { (result ≡ (k + 1) * w) × (result ≤ most_product) }
{
    (usize::from(k) + 1) * usize::from(w)
}

// How many states there are: 4, and for each rule its dots times its callers.
fn state_count<'a>(lengths: &'a [u16], count: usize, widths: &'a [u16]) -> usize
    requires { (count ≤ length lengths.now) × (count ≤ length widths.now) × (count ≤ limits.max_rules) }
    ensures { result ≡ start_of lengths.now widths.now count }
{
    let mut q = 4;
    for i in 0..count {
        q += rule_states(lengths[i], widths[i]);
    }
    q
}

// Sorts the q states of the level below by the nonterminal ahead of them, so that the callers of each rule lie together; writes how
// many each rule has; and counts the states of the level.
pub fn size_level<'a>(
    lefts: &'a [u16; MAX_RULES],
    lengths: &'a [u16; MAX_RULES],
    count: usize,
    n: u16,
    live: &'a [u8; MAX_RULES],
    ahead: &'a [u16; MAX_STATES],
    q: usize,
    first: &mut [u16; STARTS],
    callers: &mut [u16; MAX_STATES],
    widths: &mut [u16; MAX_RULES],
) -> usize
    requires by_index { (G : Grammar) × (m : ℕ) × Sizable G m (sized_by G n count lefts.now lengths.now) live.now q ahead.now }
    requires by_index_2 { (k : ℕ) → get_or callers.old k 0 < limits.max_states }
    ensures { (G : Grammar) (m : ℕ) → Sizable G m (sized_by G n count lefts.now lengths.now) live.now q ahead.now
        → Sized G m n count lefts.now lengths.now live.now q first.new callers.new widths.old widths.new result }
{
    let mut keys = [0u16; MAX_STATES];
    write_keys(ahead, q, n, &mut keys);
    let kinds = usize::from(n) + 2;
    moves::sort(&keys[..q], kinds, first, callers);
    write_widths(lefts, count, live, first, widths);
    state_count(lengths, count, widths)
}

// The numbers of callers, handed on to the next level.
pub fn pass_widths<'a>(widths: &'a [u16], count: usize, below: &mut [u16])
    requires { (count ≤ length widths.now) × (count ≤ length below.old) }
    ensures { Filled below.old below.new count (λ i. get_or widths.now i 0) }
{
    copying::copy(&mut below[..count], &widths[..count]);
}
