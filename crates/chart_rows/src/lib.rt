// The rows by which a chart is filled.

#![tactic(auto)]

ghost use Rattle.std.specs.Prelude.{◌≡◌, ◌+◌, ◌-◌, ◌*◌, ◌≤◌, ◌<◌, length, get_or, set};
ghost use Rattle.grammar.specs.Limits.{limits};
ghost use Rattle.grammar.specs.Grammar.{start};
ghost use Rattle.grammar.specs.Record.{IsRecord};
ghost use Rattle.chart_rows.specs.Wiring.{Wirable, Zeros, Roomy, lead_of, Leads, Links, Homes};
ghost use Rattle.chart_rows.specs.Preparing.{Prepares};

use grammar::{CheckedGrammar, MAX_NONTERMINALS, MAX_RULES, MAX_STATES, NONTERMINAL_BASE};
use moves::writing::write_rows;

// The left side of the rule that a state begins, by the class that leads to it, or 0.
fn lead_of(n: u16, z: u16) -> u16
    requires { n ≤ limits.max_nonterminals }
    ensures { result ≡ lead_of n z }
{
    if z < n + 1 {
        return 0;
    }
    if z < 2 * n + 1 {
        return z - (n + 1) + NONTERMINAL_BASE;
    }
    0
}

// Links a state to the next lower one before the same nonterminal.
fn link(next: &mut [u16], head: &mut [u16], p: usize, x: u16)
    requires { (p < length next.old) × (p < limits.max_states) × (x < start limits + length head.old) × (length head.old ≡ limits.max_nonterminals) }
    ensures next_unchanged { x < start limits → (next.new ≡ next.old) × (head.new ≡ head.old) }
    ensures next_after { start limits ≤ x → (next.new ≡ set next.old p (get_or head.old (x - start limits) 0)) × (head.new ≡ set head.old (x - start limits) p) }
{
    if x < NONTERMINAL_BASE {
        return;
    }
    let c = (x - NONTERMINAL_BASE) as usize;
    next[p] = head[c];
    head[c] = p as u16;
}

// An end of a rule of one of n nonterminals is its home.
fn house(home: &mut [u16], p: usize, y: u16, n: u16)
    requires { (p < limits.max_states) × (n ≤ length home.old) }
    ensures home_after { y < n → home.new ≡ set home.old y p }
    ensures home_unchanged { n ≤ y → home.new ≡ home.old }
{
    if n <= y {
        return;
    }
    home[y as usize] = p as u16;
}

// Leads, links and homes, state by state, into rows of 0.
pub fn wire(
    ahead: &[u16; MAX_STATES],
    member: &[u16; MAX_STATES],
    target: &[u16; MAX_STATES],
    n: u16,
    states: usize,
    lead: &mut [u16],
    next: &mut [u16],
    head: &mut [u16],
    home: &mut [u16],
)
    requires wirable { Wirable ahead.now member.now n states }
    requires roomy { Roomy states lead.old next.old head.old home.old }
    requires zeros { Zeros next.old × Zeros head.old × Zeros home.old }
    ensures leads { Leads target.now n states lead.new }
    ensures links { Links ahead.now states next.new head.new }
    ensures homes { Homes member.now n states home.new }
{
    for p in 0..states {
        lead[p] = lead_of(n, target[p]);
        link(next, head, p, ahead[p]);
        house(home, p, member[p], n);
    }
}

// The rows of a checked grammar; all its rules are shown, also those that no sentence uses.
pub fn prepare(
    g: &CheckedGrammar,
    ahead: &mut [u16; MAX_STATES],
    number: &mut [u16; MAX_STATES],
    lead: &mut [u16; MAX_STATES],
    next: &mut [u16; MAX_STATES],
    head: &mut [u16; MAX_NONTERMINALS],
    home: &mut [u16; MAX_NONTERMINALS],
)
    requires fact { IsRecord g.now }
    requires zeros { Zeros next.old × Zeros head.old × Zeros home.old }
    ensures { Prepares g.now ahead.new number.new lead.new next.new head.new home.new }
{
    let mut member = [0u16; MAX_STATES];
    let mut target = [0u16; MAX_STATES];
    let all = [1u8; MAX_RULES];
    let count = g.count;
    let n = g.nonterminals;
    let states = g.states;
    write_rows(
        &g.lefts,
        &g.lengths,
        &g.codes,
        count,
        &all,
        true,
        n,
        ahead,
        number,
        &mut member,
        &mut target,
    );
    wire(ahead, &member, &target, n, states, lead, next, head, home);
}
