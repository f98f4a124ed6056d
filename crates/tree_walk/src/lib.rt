// The one tree of a chart, read off from the root, children left to right: its rules are counted, then written.

#![tactic(auto)]

mod shown;
mod step;

ghost use Rattle.std.specs.Prelude.{◌≡◌, ◌^◌, ◌<◌};
ghost use Rattle.tree_walk.specs.Charted.{rows_of, Roomy};
ghost use Rattle.tree_walk.specs.Walking.{Starts, Fits, Counts, Lists};

use chart::TreeRows;
use grammar::MAX_NONTERMINALS;
use step::next_rule;

// Where the walk stands: a state, the part of the row that is still to be derived from there, and how many places wait.
#[derive(Clone, Copy)]
pub struct Walker {
    pub p: usize,
    pub i: usize,
    pub j: usize,
    pub depth: usize,
}

// Before the root.
fn root(n: usize) -> Walker
    ensures { (result.p ≡ 2) × (result.i ≡ 0) × (result.j ≡ n) × (result.depth ≡ 0) }
{
    Walker {
        p: 2,
        i: 0,
        j: n,
        depth: 0,
    }
}

// Counts the rules of the tree, at most one past the limit.
pub fn count_rules(work: &mut [u32], rows: &TreeRows, limit: usize) -> usize
    requires starts { Starts (rows_of rows.now) work.old }
    requires roomy { Roomy (rows_of rows.now) work.old }
    requires limit_bound { limit < 2 ^ 63 }
    ensures { Counts (rows_of rows.now) work.old work.new limit result }
{
    let mut found = [0u16; MAX_NONTERMINALS];
    let mut walker = root(rows.sentence.len());
    for count in 0..limit + 1 {
        if next_rule(work, rows, &mut walker, &mut found).is_none() {
            return count;
        }
    }
    limit + 1
}

// Writes the rules of the tree into the front of the list, which has room for them.
pub fn write_rules(work: &mut [u32], rows: &TreeRows, list: &mut [u16])
    requires fits { Fits (rows_of rows.now) work.old list.old }
    requires roomy { Roomy (rows_of rows.now) work.old }
    ensures { Lists (rows_of rows.now) work.old list.old list.new }
{
    let mut found = [0u16; MAX_NONTERMINALS];
    let mut walker = root(rows.sentence.len());
    for entry in list.iter_mut() {
        let Some(rule) = next_rule(work, rows, &mut walker, &mut found) else {
            return;
        };
        *entry = rule;
    }
}
