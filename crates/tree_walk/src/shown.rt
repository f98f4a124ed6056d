// What the counts show: a split of a nonterminal's part, and the rule that begins there. The counts are the two lowest bits of the work
// row's entries.
ghost use Rattle.std.specs.Prelude.{◌≡◌, true, false, ℕ, ◌%◌, ◌≤◌, ◌<◌, length, get_or};
ghost use Rattle.grammar.specs.Limits.{limits};
ghost use Rattle.tree_walk.specs.Charted.{rows_of, width, SpanIn, Both, Begins};

use chart::TreeRows;

// Is a count not 0?
fn counted(work: &[u32], at: usize) -> bool
    requires { at < length work.now }
    ensures bound { result ≡ true → 1 ≤ get_or work.now at 0 % 4 }
    ensures at_bound { result ≡ false → get_or work.now at 0 % 4 < 1 }
{
    0 < work[at] % 4
}

// Are the counts of a nonterminal from i to k and of what follows from k to j not 0?
fn both(work: &[u32], rows: &TreeRows, h: usize, z: usize, i: usize, k: usize, j: usize) -> bool
    requires span { SpanIn (rows_of rows.now) work.now i j }
    requires states_le_max_states { (rows.now.states ≤ limits.max_states) × (h < rows.now.states) × (z < rows.now.states) × (i ≤ k) × (k ≤ j) }
    ensures both { result ≡ true → Both work.now (width (rows_of rows.now)) h z i k j }
    ensures fact { result ≡ false → Both work.now (width (rows_of rows.now)) h z i k j → ⊥ }
{
    if !counted(work, rows.cell(h, k, i)) {
        return false;
    }
    counted(work, rows.cell(z, k, j))
}

// The end of a nonterminal's part that the counts show.
pub fn split(work: &[u32], rows: &TreeRows, h: usize, z: usize, i: usize, j: usize) -> usize
    requires span { SpanIn (rows_of rows.now) work.now i j }
    requires states_le_max_states { (rows.now.states ≤ limits.max_states) × (h < rows.now.states) × (z < rows.now.states) }
    ensures lower_bound { (i ≤ result) × (result ≤ j) }
    ensures by_index { (k : ℕ) → i ≤ k → k ≤ j → Both work.now (width (rows_of rows.now)) h z i k j → Both work.now (width (rows_of rows.now)) h z i result j }
{
    for k in i..j {
        if both(work, rows, h, z, i, k, j) {
            return k;
        }
    }
    j
}

// Does a state begin a rule of b whose count from i to k is not 0?
fn begins(work: &[u32], rows: &TreeRows, b: u16, i: usize, k: usize, s: usize) -> bool
    requires span { SpanIn (rows_of rows.now) work.now i k }
    requires states_le_max_states { (rows.now.states ≤ limits.max_states) × (4 ≤ rows.now.states) × (s < rows.now.states) }
    ensures begins { result ≡ true → Begins work.now rows.now.ahead.now rows.now.lead.now (width (rows_of rows.now)) b i k s }
    ensures fact { result ≡ false → Begins work.now rows.now.ahead.now rows.now.lead.now (width (rows_of rows.now)) b i k s → ⊥ }
{
    if rows.lead[s] != b {
        return false;
    }
    counted(work, rows.cell(rows.plane(s), i, k))
}

// The state that begins the rule of b that the counts show from i to k; the one that was found last for b is tried first.
pub fn first_of(work: &[u32], rows: &TreeRows, b: u16, i: usize, k: usize, last: usize) -> usize
    requires span { SpanIn (rows_of rows.now) work.now i k }
    requires states_le_max_states { (rows.now.states ≤ limits.max_states) × (4 ≤ rows.now.states) }
    ensures upper_bound { result < rows.now.states }
    ensures by_index { (s : ℕ) → s < rows.now.states → Begins work.now rows.now.ahead.now rows.now.lead.now (width (rows_of rows.now)) b i k s → Begins work.now rows.now.ahead.now rows.now.lead.now (width (rows_of rows.now)) b i k result }
{
    if last < rows.states {
        if begins(work, rows, b, i, k, last) {
            return last;
        }
    }
    let end = rows.states - 1;
    for s in 0..end {
        if begins(work, rows, b, i, k, s) {
            return s;
        }
    }
    end
}
