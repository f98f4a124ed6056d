// Which rules of a checked grammar some sentence uses, and whether there is a sentence: by the nonterminals that have a tree,
// and then by what S reaches through rules that can stand in a tree.

#![tactic(auto)]

mod columns;
mod marks;
mod passes;

ghost use Rattle.std.specs.Prelude.{◌≡◌, ℕ, ◌+◌, ◌≤◌, ◌<◌, ◌&&◌, length, get_or};
ghost use Rattle.grammar.specs.Limits.{limits};
ghost use Rattle.grammar.specs.Grammar.{Grammar};
ghost use Rattle.grammar.specs.Live.{has_sentence};
ghost use Rattle.live.specs.Marks.{marked, all_marked, Small, left_at, right_at, Columns, bit, Answers};
ghost use Rattle.live.specs.Lent.{ColumnsOf};

use columns::Rules;
use grammar::{MAX_NONTERMINALS, MAX_RULES, MAX_STATES};
use marks::{all_marked, is_marked};
use passes::{mark_productive, mark_reachable};

// Of rule i, counted from 0 here, 1 if it is live, else 0.
#[derive(Drop)]
pub struct LiveRules {
    pub sentence: bool,
    pub rules: [u8; MAX_RULES],
}

// Is the left side reached, and can the rule stand in a tree?
fn is_live(left: u16, codes: &[u16], productive: &[u8], reached: &[u8]) -> u8
    requires left_bound { left < limits.nonterminal_base + length reached.now }
    requires small { Small (length productive.now) codes.now }
    ensures { result ≡ bit (marked reached.now left && all_marked productive.now codes.now) }
{
    u8::from(is_marked(left, reached) && all_marked(codes, productive))
}

// Writes of each rule whether it is live.
fn write_live(rules: &Rules<'_>, productive: &[u8], reached: &[u8], live: &mut [u8])
    requires productive_len { length productive.now ≡ limits.max_nonterminals }
    requires reached_len { length reached.now ≡ limits.max_nonterminals }
    requires count_in_bounds { rules.now.count ≤ length live.old }
    ensures { (j : ℕ) → j < rules.now.count → get_or live.new j 0
        ≡ bit (marked reached.now (left_at rules.now.lefts.now j) && all_marked productive.now (right_at rules.now.lengths.now rules.now.codes.now j)) }
{
    let mut u = 0;
    for i in 0..rules.count {
        let e = u + usize::from(rules.lengths[i]);
        live[i] = is_live(rules.lefts[i], &rules.codes[u..e], productive, reached);
        u = e;
    }
}

// Is there a sentence of the checked grammar whose columns these are?
pub fn has_sentence<'a>(
    lefts: &'a [u16; MAX_RULES],
    lengths: &'a [u16; MAX_RULES],
    codes: &'a [u16; MAX_STATES],
    count: usize,
    used: usize,
) -> bool
    requires { (G : Grammar) × (n : ℕ) × (q : ℕ) × ColumnsOf G n q count used lefts.now lengths.now codes.now }
    ensures { (G : Grammar) (n q : ℕ) → ColumnsOf G n q count used lefts.now lengths.now codes.now → result ≡ has_sentence limits G }
{
    let rules = Rules {
        lefts,
        lengths,
        codes,
        count,
        used,
    };
    let mut productive = [0u8; MAX_NONTERMINALS];
    mark_productive(&rules, &mut productive);
    0 < productive[0]
}

// Which rules of that grammar are live, and is there a sentence?
pub fn live_rules<'a>(
    lefts: &'a [u16; MAX_RULES],
    lengths: &'a [u16; MAX_RULES],
    codes: &'a [u16; MAX_STATES],
    count: usize,
    used: usize,
) -> LiveRules
    requires { (G : Grammar) × (n : ℕ) × (q : ℕ) × ColumnsOf G n q count used lefts.now lengths.now codes.now }
    ensures { (G : Grammar) (n q : ℕ) → ColumnsOf G n q count used lefts.now lengths.now codes.now → Answers result.sentence result.rules G }
{
    let rules = Rules {
        lefts,
        lengths,
        codes,
        count,
        used,
    };
    let mut productive = [0u8; MAX_NONTERMINALS];
    mark_productive(&rules, &mut productive);
    let mut reached = [0u8; MAX_NONTERMINALS];
    reached[0] = 1;
    mark_reachable(&rules, &productive, &mut reached);
    let mut live = [0u8; MAX_RULES];
    write_live(&rules, &productive, &reached, &mut live);
    LiveRules {
        sentence: 0 < productive[0],
        rules: live,
    }
}
