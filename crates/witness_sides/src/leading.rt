// The record that leads from one index to another, looked for among the records of the first.
ghost use Rattle.std.specs.Prelude.{◌≡◌, ◌≤◌};
ghost use Rattle.grammar.specs.Limits.{limits};
ghost use Rattle.triples.specs.Index.{index};
ghost use Rattle.steps.specs.Plan.{rows_of};
ghost use Rattle.witness_sides.specs.Clauses.{step_found, Searchable};

use grammar::MAX_STATES;
use indices::index_of;
use moves::CLASSES;
use steps::StepAnswer;
use triples::Step;

// No triple has more records: at most one for each pair of states.
const MAX_RECORDS: usize = MAX_STATES * MAX_STATES;

// The index of a step's next triple, among q states.
fn next_index(s: Step, q: usize) -> usize
    requires { q ≤ limits.max_states }
    ensures { result ≡ index q s.layer s.left s.right }
{
    index_of(q, s.layer as usize, s.left as usize, s.right as usize)
}

// The first record of index i that leads to index j, from the rows of q states, if there is one.
pub fn step_to<'a>(
    ahead: &'a [u16; MAX_STATES],
    number: &'a [u16; MAX_STATES],
    member: &'a [u16; MAX_STATES],
    first: &'a [u16; CLASSES],
    after: &'a [u16; MAX_STATES],
    targets: &'a [u16],
    t: u16,
    m: u16,
    q: usize,
    i: usize,
    j: usize,
) -> Option<Step>
    requires { Searchable q member.now first.now targets.now }
    ensures { result ≡ step_found (rows_of ahead.now number.now member.now first.now after.now targets.now t m) q i j }
{
    let layer = i / (q * q);
    let left = i / q % q;
    let right = i % q;
    for k in 0..MAX_RECORDS {
        let answer = steps::nth_rows(
            ahead, number, member, first, after, targets, t, m, layer, left, right, k,
        );
        let StepAnswer::Record(s) = answer else {
            return None;
        };
        if next_index(s, q) == j {
            return Some(s);
        }
    }
    None
}
