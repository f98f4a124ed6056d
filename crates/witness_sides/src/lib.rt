// The two strings of a row of indices: what moves on either side, step by step.

#![tactic(auto)]

mod leading;
mod letter;

ghost use Rattle.std.specs.Prelude.{◌≡◌, ◌≤◌, length};
ghost use Rattle.steps.specs.Plan.{rows_of};
ghost use Rattle.witness_sides.specs.Sides.{Walkable, Walks};
ghost use Rattle.witness_sides.specs.Clauses.{Searchable, SidesStand};

use grammar::{MAX_STATES, TableVerdict};
use leading::step_to;
use letter::put_letter;
use moves::CLASSES;

// How many letters the left side has, and the right side.
#[derive(Drop)]
pub struct Lengths {
    pub left: usize,
    pub right: usize,
}

// The letters of the two sides of a row, from the rows of a grammar with q states.
fn walk<'a>(
    ahead: &'a [u16; MAX_STATES],
    number: &'a [u16; MAX_STATES],
    member: &'a [u16; MAX_STATES],
    first: &'a [u16; CLASSES],
    after: &'a [u16; MAX_STATES],
    targets: &'a [u16],
    t: u16,
    m: u16,
    q: usize,
    row: &'a [u32],
    left: &mut [u32],
    right: &mut [u32],
) -> Lengths
    requires searchable { Searchable q member.now first.now targets.now }
    requires row_in_bounds { (length row.now ≤ length left.old) × (length row.now ≤ length right.old) }
    ensures { SidesStand (rows_of ahead.now number.now member.now first.now after.now targets.now t m) q row.now result left.new right.new }
{
    let mut lefts = 0;
    let mut rights = 0;
    for x in 1..row.len() {
        let i = row[x - 1] as usize;
        let j = row[x] as usize;
        let found = step_to(ahead, number, member, first, after, targets, t, m, q, i, j);
        let Some(s) = found else {
            continue;
        };
        lefts = put_letter(left, lefts, s.on_left);
        rights = put_letter(right, rights, s.on_right);
    }
    Lengths {
        left: lefts,
        right: rights,
    }
}

// The letters of the two sides of a row of indices, at the fronts of two rows.
pub fn two_sides(
    t: usize,
    n: usize,
    table: &[u16],
    row: &[u32],
    left: &mut [u32],
    right: &mut [u32],
) -> Lengths
    requires { Walkable t n table.now row.now left.old right.old }
    ensures { Walks t n table.now row.now result left.new right.new }
{
    let mut ahead = [0u16; MAX_STATES];
    let mut number = [0u16; MAX_STATES];
    let mut member = [0u16; MAX_STATES];
    let mut target = [0u16; MAX_STATES];
    let mut first = [0u16; CLASSES];
    let mut targets = [0u16; MAX_STATES];
    let mut after = [0u16; MAX_STATES];
    let w = prepared::prepare(
        t,
        n,
        table,
        0,
        &mut ahead,
        &mut number,
        &mut member,
        &mut target,
        &mut first,
        &mut targets,
        &mut after,
    );
    let verdict = w.verdict;
    match verdict {
        TableVerdict::Refused(_, _) => {
            return Lengths { left: 0, right: 0 };
        }
        TableVerdict::Passed => {
            let t = w.terminals;
            let m = w.kinds;
            let q = w.states;
            return walk(
                &ahead, &number, &member, &first, &after, &targets, t, m, q, row, left, right,
            );
        }
    }
}
