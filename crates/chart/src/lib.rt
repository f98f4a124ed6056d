// The chart of a row of terminals: of each state how many ways, 0, 1 or 2 for more, what stands after its dot derives the terminals
// from i to j; of each nonterminal likewise. It is filled span by span; within a span only states before what rose are looked at again.

#![tactic(auto)]

mod rows;

ghost use Rattle.std.specs.Prelude.{◌+◌, ◌-◌, ◌*◌, ◌≤◌, ◌<◌, ◌≡◌, ◌&&◌, eqb, ltb, length, get_or, set};
ghost use Rattle.grammar.specs.Basics.{choose};
ghost use Rattle.grammar.specs.Limits.{limits};
ghost use Rattle.trees.specs.Trees.{places};
ghost use Rattle.tree_laws.specs.Chart.{cap};
ghost use Rattle.counts.specs.Counts.{item_cell, whole_cell};
ghost use Rattle.chart.specs.Rows.{Settles, block, Flagged, Covered, slack};
ghost use Rattle.chart.specs.Filling.{width, SpanIn, made_in, Looks};

use counts::{plus, ways};
use grammar::{MAX_STATES, NONTERMINAL_BASE};
pub use rows::{ENDS, GrammarRows, TreeRows};

// How many flags share a byte that says whether one of them may be set.
pub const BLOCK: usize = 32;

// What is made of the count of a state before a terminal.
fn made_of_terminal(work: &[u32], rows: &GrammarRows, x: u16, z: usize, i: usize, j: usize) -> u32
    requires span { SpanIn rows.now work.now i j }
    requires z_bound { z < rows.now.states }
    ensures { result ≡ cap (choose (ltb i j && eqb (get_or rows.now.sentence.now i 0) x) (get_or work.now (item_cell (width rows.now) z (i + 1) j) 0) 0) }
{
    if j <= i {
        return 0;
    }
    if rows.sentence[i] != x {
        return 0;
    }
    let at = rows.cell(z, i + 1, j);
    plus(work[at], 0)
}

// What the others make of the count of the state before q, from i to j.
fn made(work: &[u32], rows: &GrammarRows, q: usize, i: usize, j: usize) -> u32
    requires span { SpanIn rows.now work.now i j }
    requires le_q { (1 ≤ q) × (q < rows.now.states) }
    ensures { result ≡ cap (made_in rows.now work.now q i j) }
{
    let x = rows.ahead[q - 1];
    let z = rows.plane(q);
    if x < NONTERMINAL_BASE {
        return made_of_terminal(work, rows, x, z, i, j);
    }
    let h = rows.home_of(x);
    ways(work, rows.sentence.len() + 1, h, z, i, j)
}

// Raises the count of the state before q to what the others make of it; by how much.
fn settle(work: &mut [u32], rows: &GrammarRows, q: usize, i: usize, j: usize) -> u32
    requires span { SpanIn rows.now work.old i j }
    requires le_q { (1 ≤ q) × (q < rows.now.states) }
    ensures { Settles (made_in rows.now work.old q i j) (item_cell (width rows.now) (q - 1) i j) result work.old work.new }
{
    let at = rows.cell(q - 1, i, j);
    let old = work[at];
    if old >= 2 {
        return 0;
    }
    let new = made(work, rows, q, i, j);
    if new <= old {
        return 0;
    }
    work[at] = new;
    new - old
}

// Raises the count of a nonterminal, by its home.
fn raise(work: &mut [u32], rows: &GrammarRows, h: usize, i: usize, j: usize, rise: u32)
    requires span { SpanIn rows.now work.old i j }
    requires h_bound { h < rows.now.states }
    ensures { work.new ≡ set work.old (whole_cell (width rows.now) h i j) (cap (get_or work.old (whole_cell (width rows.now) h i j) 0 + rise)) }
{
    let at = rows.cell(h, j, i);
    work[at] = plus(work[at], rise);
}

// Sets the flags just past the states before a nonterminal, and their blocks' bytes; where the scan of the flags is to go on from.
fn mention(flags: &mut [u8], rows: &GrammarRows, c: usize, q: usize, blocks: &mut [u8]) -> usize
    requires c_lt_max_nonterminals { c < limits.max_nonterminals }
    requires q_le_states { q ≤ rows.now.states }
    requires states_in_bounds { (rows.now.states ≤ length flags.old) × (rows.now.states ≤ block * length blocks.old) }
    ensures flagged { Flagged rows.now.ahead.now rows.now.states c (get_or rows.now.head.now c 0) flags.old flags.new }
    ensures lower_bound { (q ≤ result) × (get_or rows.now.head.now c 0 + 2 ≤ result) × (result ≤ rows.now.states) }
    ensures covered { Covered rows.now.states flags.old blocks.old → Covered rows.now.states flags.new blocks.new }
{
    let top = rows.head[c] as usize;
    let next = rows.next;
    let mut p = top;
    while 0 < p {
        flags[p + 1] = 1;
        blocks[(p + 1) / BLOCK] = 1;
        p = next[p] as usize;
    }
    if q < top + 2 {
        return top + 2;
    }
    q
}

// Looks at the state before q for the span from i to j; where the scan of the flags is to go on from.
pub fn look(
    work: &mut [u32],
    rows: &GrammarRows,
    active: &mut [u8],
    flags: &mut [u8],
    blocks: &mut [u8],
    q: usize,
    i: usize,
    j: usize,
) -> usize
    requires span { SpanIn rows.now work.old i j }
    requires le_q { (1 ≤ q) × (q < rows.now.states) }
    requires states_in_bounds { (rows.now.states ≤ length active.old) × (rows.now.states ≤ length flags.old) × (rows.now.states ≤ block * length blocks.old) }
    ensures looks { Looks rows.now work.old work.new active.old active.new flags.old flags.new q result i j }
    ensures upper_bound { (result ≤ rows.now.states) × (slack work.new * (limits.max_states + 1) + result ≤ slack work.old * (limits.max_states + 1) + q) }
    ensures covered { Covered rows.now.states flags.old blocks.old → Covered rows.now.states flags.new blocks.new }
{
    let p = q - 1;
    flags[q] = 0;
    if rows.ahead[p] == 0 {
        return q;
    }
    let rise = settle(work, rows, q, i, j);
    if rise == 0 {
        return q;
    }
    active[p] = 1;
    let b = rows.lead[p];
    if b == 0 {
        flags[p] = 1;
        blocks[p / BLOCK] = 1;
        return q;
    }
    let h = rows.home_of(b);
    raise(work, rows, h, i, j, rise);
    let c = (b - NONTERMINAL_BASE) as usize;
    mention(flags, rows, c, q, blocks)
}
