// The rows that show a grammar to the code over its chart, and the row of terminals that is asked about.
ghost use Rattle.std.specs.Prelude.{◌+◌, ◌≤◌, ◌<◌, ◌≡◌, length};
ghost use Rattle.grammar.specs.Limits.{limits};
ghost use Rattle.grammar.specs.Grammar.{start};
ghost use Rattle.trees.specs.Trees.{places};
ghost use Rattle.counts.specs.Counts.{item_cell};
ghost use Rattle.chart.specs.Rows.{plane_of, home_of, Wired};

use grammar::{MAX_NONTERMINALS, MAX_STATES, NONTERMINAL_BASE};

// The plane of all ends' counts: that of state 3, the end after S.
pub const ENDS: usize = 3;

// What a walk through a tree reads. Of each state: the code ahead, the left side of the rule that it begins, and that rule's number.
// Of each nonterminal: its home.
#[derive(Clone, Copy)]
pub struct TreeRows<'a> {
    pub states: usize,
    pub ahead: &'a [u16; MAX_STATES],
    pub lead: &'a [u16; MAX_STATES],
    pub number: &'a [u16; MAX_STATES],
    pub home: &'a [u16; MAX_NONTERMINALS],
    pub sentence: &'a [u16],
}

impl TreeRows<'_> {
    // The entry of the work row for a state's count from i to j; with i and j exchanged that for a nonterminal's, by its home.
    pub fn cell(&self, p: usize, i: usize, j: usize) -> usize
        requires width_bound { length self.now.sentence.now < places }
        requires in_bounds { (p < limits.max_states) × (i ≤ length self.now.sentence.now) × (j ≤ length self.now.sentence.now) }
        ensures { result ≡ item_cell (length self.now.sentence.now + 1) p i j }
    {
        let m = self.sentence.len() + 1;
        (p * m + j) * m + i
    }

    // The plane of a state's counts.
    pub fn plane(&self, p: usize) -> usize
        requires { p < limits.max_states }
        ensures { result ≡ plane_of self.now.ahead.now p }
    {
        if self.ahead[p] == 0 { ENDS } else { p }
    }

    // The home of a nonterminal.
    pub fn home_of(&self, b: u16) -> usize
        requires limits_bound { start limits ≤ b }
        requires b_bound { b < start limits + limits.max_nonterminals }
        ensures { result ≡ home_of self.now.home.now b }
    {
        let c = (b - NONTERMINAL_BASE) as usize;
        self.home[c] as usize
    }
}

// What the filling of a chart reads: also, of each state, the next lower state before the same nonterminal, and of each nonterminal the
// highest state before it.
#[derive(Clone, Copy)]
pub struct GrammarRows<'a> {
    pub states: usize,
    pub ahead: &'a [u16; MAX_STATES],
    pub lead: &'a [u16; MAX_STATES],
    pub number: &'a [u16; MAX_STATES],
    pub next: &'a [u16; MAX_STATES],
    pub head: &'a [u16; MAX_NONTERMINALS],
    pub home: &'a [u16; MAX_NONTERMINALS],
    pub sentence: &'a [u16],
    pub ghost wired: { Wired states ahead.now lead.now next.now head.now home.now },
}

impl<'a> GrammarRows<'a> {
    // Those that a walk reads.
    pub fn tree(&self) -> TreeRows<'a>
        ensures states { result.states ≡ self.now.states }
        ensures ahead { result.ahead.now ≡ self.now.ahead.now }
        ensures lead { result.lead.now ≡ self.now.lead.now }
        ensures number { result.number.now ≡ self.now.number.now }
        ensures home { result.home.now ≡ self.now.home.now }
        ensures sentence { result.sentence.now ≡ self.now.sentence.now }
    {
        TreeRows {
            states: self.states,
            ahead: self.ahead,
            lead: self.lead,
            number: self.number,
            home: self.home,
            sentence: self.sentence,
        }
    }

    // Entries, planes and homes are those of a walk.
    pub fn cell(&self, p: usize, i: usize, j: usize) -> usize
        requires width_bound { length self.now.sentence.now < places }
        requires in_bounds { (p < limits.max_states) × (i ≤ length self.now.sentence.now) × (j ≤ length self.now.sentence.now) }
        ensures { result ≡ item_cell (length self.now.sentence.now + 1) p i j }
    {
        self.tree().cell(p, i, j)
    }

    pub fn plane(&self, p: usize) -> usize
        requires { p < limits.max_states }
        ensures { result ≡ plane_of self.now.ahead.now p }
    {
        self.tree().plane(p)
    }

    pub fn home_of(&self, b: u16) -> usize
        requires limits_bound { start limits ≤ b }
        requires b_bound { b < start limits + limits.max_nonterminals }
        ensures { result ≡ home_of self.now.home.now b }
    {
        self.tree().home_of(b)
    }
}
