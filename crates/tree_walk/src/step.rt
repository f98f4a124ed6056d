// The walk from one rule to the next: back to what waits at an end, on at a terminal, into a rule at a nonterminal. What waits stands in
// the upper bits of the work row's entries.
ghost use Rattle.std.specs.Prelude.{◌≡◌, ◌+◌, ◌*◌, ◌/◌, ◌%◌, ◌≤◌, ◌<◌, length, get_or, set};
ghost use Rattle.grammar.specs.Limits.{limits};
ghost use Rattle.grammar.specs.Grammar.{start};
ghost use Rattle.trees.specs.Trees.{places};
ghost use Rattle.tree_walk.specs.Charted.{rows_of, Roomy};
ghost use Rattle.tree_walk.specs.Walking.{Walks, Opens, Finds};

use super::Walker;
use super::shown::{first_of, split};
use chart::TreeRows;
use grammar::{MAX_NONTERMINALS, NONTERMINAL_BASE};

// The place that waits in entry d.
fn back(work: &[u32], m: usize, d: usize) -> Walker
    requires { (d < length work.now) × (1 ≤ m) }
    ensures p_value { (result.p ≡ get_or work.now d 0 / 4 / m / m) × (result.i ≡ get_or work.now d 0 / 4 % m) × (result.j ≡ get_or work.now d 0 / 4 / m % m) }
    ensures depth_value { result.depth ≡ d }
{
    let f = work[d] as usize / 4;
    Walker {
        p: f / m / m,
        i: f % m,
        j: f / m % m,
        depth: d,
    }
}

// Has a place wait in entry d, above its count.
fn wait(work: &mut [u32], d: usize, f: usize)
    requires { (d < length work.old) × (f < places * places * limits.max_states) }
    ensures { work.new ≡ set work.old d (get_or work.old d 0 % 4 + 4 * f) }
{
    work[d] = work[d] % 4 + 4 * f as u32;
}

// Into the rule that the counts show, and its number; what follows the nonterminal waits. `found` has the state that was found last for
// each nonterminal: subtrees without a terminal, of which there may be very many, have the same rule each time.
fn open(
    work: &mut [u32],
    rows: &TreeRows,
    walker: &mut Walker,
    found: &mut [u16; MAX_NONTERMINALS],
) -> u16
    requires walks { Walks (rows_of rows.now) work.old walker.old }
    requires roomy { Roomy (rows_of rows.now) work.old }
    requires limits_bound { start limits ≤ get_or rows.now.ahead.now walker.old.p 0 }
    ensures { Opens (rows_of rows.now) work.old work.new walker.old walker.new result }
{
    let Walker { p, i, j, depth } = *walker;
    let b = rows.ahead[p];
    let h = rows.home_of(b);
    let z = rows.plane(p + 1);
    let k = split(work, rows, h, z, i, j);
    let c = (b - NONTERMINAL_BASE) as usize;
    let s = first_of(work, rows, b, i, k, found[c] as usize);
    found[c] = s as u16;
    let f = rows.cell(p + 1, k, j);
    wait(work, depth, f);
    let rule = rows.number[s];
    *walker = Walker {
        p: s,
        i,
        j: k,
        depth: depth + 1,
    };
    rule
}

// Goes on to the next rule and into it, and tells its number; or to the end of the tree.
pub fn next_rule(
    work: &mut [u32],
    rows: &TreeRows,
    walker: &mut Walker,
    found: &mut [u16; MAX_NONTERMINALS],
) -> Option<u16>
    requires walks { Walks (rows_of rows.now) work.old walker.old }
    requires roomy { Roomy (rows_of rows.now) work.old }
    ensures { Finds (rows_of rows.now) work.old work.new walker.old walker.new result }
{
    let m = rows.sentence.len() + 1;
    while rows.ahead[walker.p] < NONTERMINAL_BASE {
        if rows.ahead[walker.p] != 0 {
            walker.p += 1;
            walker.i += 1;
        } else if walker.depth == 0 {
            return None;
        } else {
            *walker = back(work, m, walker.depth - 1);
        }
    }
    Some(open(work, rows, walker, found))
}
