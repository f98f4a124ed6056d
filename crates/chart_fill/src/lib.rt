// The chart of a row of terminals, filled span by span: those that end first, and of these the shortest, come first.

#![tactic(auto)]

ghost use Rattle.std.specs.Prelude.{ℕ, suc, ◌*◌, ◌≤◌, ◌<◌, ◌≡◌, length, get_or};
ghost use Rattle.grammar.specs.Limits.{limits};
ghost use Rattle.chart.specs.Rows.{block};
ghost use Rattle.chart.specs.Filling.{SpanIn, Fills, FillsColumn, FillsAll};
ghost use Rattle.chart_fill.specs.Scan.{Finds};

use chart::{BLOCK, GrammarRows, look};
use grammar::MAX_STATES;

// So many blocks have flags for all states.
pub const BLOCKS: usize = MAX_STATES / BLOCK;

// The place from which on, up to q, no flag is set: just past one that is, or low.
fn below(flags: &[u8; MAX_STATES], low: usize, q: usize) -> usize
    requires { (low ≤ q) × (q ≤ limits.max_states) }
    ensures { (low ≤ result) × (result ≤ q) × ((h : ℕ) → result ≤ h → h < q → get_or flags.now h 0 ≡ 0) }
{
    for p in (low..q).rev() {
        if flags[p] != 0 {
            return p + 1;
        }
    }
    low
}

// Where no flag is set from q on: the place just past the next one that is, or at most 3. Blocks whose byte is 0 are passed over, and
// the byte of a block is cleared where no flag of it is left.
fn find(flags: &[u8; MAX_STATES], states: usize, q: usize, blocks: &mut [u8]) -> usize
    requires { (q ≤ states) × (states ≤ limits.max_states) × (states ≤ block * length blocks.old) }
    ensures upper_bound { result ≤ q }
    ensures finds { Finds states flags.now blocks.old blocks.new q result }
{
    let mut p = q;
    // the lowest state with a symbol ahead is 2, and its flag is that of state 3
    while 3 < p {
        let b = (p - 1) / BLOCK;
        let low = b * BLOCK;
        if blocks[b] != 0 {
            p = below(flags, low, p);
            if low < p {
                return p;
            }
            blocks[b] = 0;
        }
        p = low;
    }
    p
}

// The span from i to j; `active` marks the states of which something is counted up to j.
fn span(work: &mut [u32], rows: &GrammarRows, active: &mut [u8; MAX_STATES], i: usize, j: usize)
    requires { SpanIn rows.now work.old i j }
    ensures { Fills rows.now work.old work.new active.old active.new (suc i) j i j }
{
    let states = rows.states;
    let mut flags = *active;
    let mut blocks = [1u8; BLOCKS];
    let mut q = find(&flags, states, states, &mut blocks);
    while 3 < q {
        let r = look(work, rows, active, &mut flags, &mut blocks, q - 1, i, j);
        q = find(&flags, states, r, &mut blocks);
    }
}

// All spans that end at j; `marks` are at the ends.
fn column(work: &mut [u32], rows: &GrammarRows, marks: &[u8; MAX_STATES], j: usize)
    requires { SpanIn rows.now work.old j j }
    ensures { FillsColumn rows.now work.old work.new marks.now j }
{
    let mut active = *marks;
    for i in (0..j + 1).rev() {
        span(work, rows, &mut active, i, j);
    }
}

// Marks at the ends: 1.
fn ends(ahead: &[u16; MAX_STATES]) -> [u8; MAX_STATES]
    ensures { (p : ℕ) → p < limits.max_states → get_or ahead.now p 0 ≡ 0 → get_or result p 0 ≡ 1 }
{
    let mut marks = [0u8; MAX_STATES];
    for (p, mark) in marks.iter_mut().enumerate() {
        *mark = u8::from(ahead[p] == 0);
    }
    marks
}

// All spans of a row.
pub fn fill(work: &mut [u32], rows: &GrammarRows)
    requires { SpanIn rows.now work.old 0 0 }
    ensures { FillsAll rows.now work.old work.new }
{
    let marks = ends(rows.ahead);
    let places = rows.sentence.len() + 1;
    for j in 0..places {
        column(work, rows, &marks, j);
    }
}
