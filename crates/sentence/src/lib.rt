// The trees of one sentence: none, one with its rules, or several.

#![tactic(auto)]

ghost use Rattle.std.specs.Prelude.{◌+◌, ◌*◌, ◌≤◌, ◌<◌, length};
ghost use Rattle.grammar.specs.Record.{IsRecord};
ghost use Rattle.trees.specs.Trees.{places};
ghost use Rattle.chart_rows.specs.Wiring.{Zeros};
ghost use Rattle.tree_walk.specs.Charted.{rows_of, Roomy};
ghost use Rattle.sentence.specs.Answered.{HasChart, Answers, Judges};

use chart::{GrammarRows, TreeRows};
use chart_fill::fill;
use chart_rows::prepare;
use chart_start::sow;
use grammar::{CheckedGrammar, MAX_NONTERMINALS, MAX_STATES};
use tree_walk::{count_rules, write_rules};

// One comes with how many rules there are.
#[derive(Clone, Copy)]
pub enum Outcome {
    Nothing,
    One(usize),
    Several,
}

// There is one tree, and the list is too short for its rules; it is left as it was.
#[derive(Clone, Copy)]
pub struct ListTooShort;

// The answer that a complete chart holds.
pub fn answer(work: &mut [u32], rows: &TreeRows, list: &mut [u16]) -> Result<Outcome, ListTooShort>
    requires has_chart { HasChart (rows_of rows.now) work.old }
    requires roomy { Roomy (rows_of rows.now) work.old }
    ensures { Answers (rows_of rows.now) work.old list.old list.new result }
{
    let at = rows.cell(2, 0, rows.sentence.len());
    let c = work[at];
    if c == 0 {
        return Ok(Outcome::Nothing);
    }
    if c > 1 {
        return Ok(Outcome::Several);
    }
    let limit = list.len();
    let size = count_rules(work, rows, limit);
    if limit < size {
        return Err(ListTooShort);
    }
    write_rules(work, rows, list);
    Ok(Outcome::One(size))
}

// The trees of a row of terminals of a checked grammar; the work row is all 0 and has m × m entries for each state, where m is one
// more than the row has terminals.
pub fn judge(
    g: &CheckedGrammar,
    row: &[u16],
    work: &mut [u32],
    list: &mut [u16],
) -> Result<Outcome, ListTooShort>
    requires fact { IsRecord g.now }
    requires row_in_bounds { (g.now.states * (length row.now + 1) * (length row.now + 1) ≤ length work.old) × (length row.now < places) }
    requires zeros { Zeros work.old }
    ensures { Judges g.now row.now list.old list.new result }
{
    let mut ahead = [0u16; MAX_STATES];
    let mut number = [0u16; MAX_STATES];
    let mut lead = [0u16; MAX_STATES];
    let mut next = [0u16; MAX_STATES];
    let mut head = [0u16; MAX_NONTERMINALS];
    let mut home = [0u16; MAX_NONTERMINALS];
    prepare(
        g,
        &mut ahead,
        &mut number,
        &mut lead,
        &mut next,
        &mut head,
        &mut home,
    );
    let rows = GrammarRows {
        states: g.states,
        ahead: &ahead,
        lead: &lead,
        number: &number,
        next: &next,
        head: &head,
        home: &home,
        sentence: row,
    };
    sow(work, &rows, g);
    fill(work, &rows);
    let tree = rows.tree();
    answer(work, &tree, list)
}
