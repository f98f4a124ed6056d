// The work row before it is filled.

#![tactic(auto)]

ghost use Rattle.std.specs.Prelude.{ℕ, ◌+◌, ◌≤◌, ◌<◌, ◌≡◌, get_or};
ghost use Rattle.grammar.specs.Limits.{limits};
ghost use Rattle.grammar.specs.Grammar.{start};
ghost use Rattle.chart.specs.Rows.{home_of};
ghost use Rattle.chart.specs.Filling.{width, SpanIn};
ghost use Rattle.chart_start.specs.Sown.{Diagonal, Sows};

use chart::{ENDS, GrammarRows};
use counts::plus;
use grammar::CheckedGrammar;

// Raises the diagonal of a plane by 1.
fn diagonal(work: &mut [u32], rows: &GrammarRows, h: usize)
    requires span { SpanIn rows.now work.old 0 0 }
    requires h_bound { h < rows.now.states }
    ensures { Diagonal (width rows.now) h (width rows.now) work.old work.new }
{
    let places = rows.sentence.len() + 1;
    for i in 0..places {
        let at = rows.cell(h, i, i);
        work[at] = plus(work[at], 1);
    }
}

// A rule of b with k symbols: if it has none, b derives the empty row.
fn sow_rule(work: &mut [u32], rows: &GrammarRows, b: u16, k: u16)
    requires span { SpanIn rows.now work.old 0 0 }
    requires limits_bound { (start limits ≤ b) × (b < start limits + limits.max_nonterminals) }
    ensures diagonal { k ≡ 0 → Diagonal (width rows.now) (home_of rows.now.home.now b) (width rows.now) work.old work.new }
    ensures work_unchanged { (k ≡ 0 → ⊥) → work.new ≡ work.old }
{
    if k != 0 {
        return;
    }
    let h = rows.home_of(b);
    diagonal(work, rows, h);
}

// Ends derive the empty row, and so do nonterminals with an empty right side.
pub fn sow(work: &mut [u32], rows: &GrammarRows, g: &CheckedGrammar)
    requires span { SpanIn rows.now work.old 0 0 }
    requires count_le_max_rules { (g.now.count ≤ limits.max_rules) × ((r : ℕ) → r < g.now.count → (start limits ≤ get_or g.now.lefts r 0) × (get_or g.now.lefts r 0 < start limits + limits.max_nonterminals)) }
    ensures { Sows rows.now g.now work.old work.new }
{
    diagonal(work, rows, ENDS);
    for r in 0..g.count {
        sow_rule(work, rows, g.lefts[r], g.lengths[r]);
    }
}
