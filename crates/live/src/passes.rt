// Passes over the rules: each marks what follows from the marks, and the passes end when one marks nothing.
// Grammars are mostly written with a nonterminal's rules after its use: so trees are looked for from the last rule to the
// first, and what S reaches from the first rule to the last.
ghost use Rattle.std.specs.Prelude.{ℕ, ◌+◌, ◌≤◌, ◌<◌, ◌≡◌, length};
ghost use Rattle.grammar.specs.Limits.{limits};
ghost use Rattle.live.specs.Marks.{Small, Passed, Derived, DerivedMarks, Led, LedMarks, before, Columns, AllDerived, AllDerivedMarks, AllLed, AllLedMarks, Finished};

use super::columns::Rules;
use super::marks::{all_marked, is_marked, mark, mark_codes};

// Marks a rule's left side if all nonterminals of its right side are marked; how many marks are new?
fn derive(left: u16, codes: &[u16], marks: &mut [u8]) -> usize
    requires left_bound { left < limits.nonterminal_base + length marks.old }
    requires small { Small (length marks.old) codes.now }
    ensures { Passed (Derived left codes.now) (DerivedMarks left codes.now) marks.old marks.new result }
{
    if !all_marked(codes, marks) {
        return 0;
    }
    mark(left, marks)
}

// Marks the nonterminals of a right side if the left side is marked and the rule can stand in a tree; how many marks are new?
fn lead(left: u16, codes: &[u16], productive: &[u8], marks: &mut [u8]) -> usize
    requires left_bound { left < limits.nonterminal_base + length marks.old }
    requires nonterminal_base_le_left { limits.nonterminal_base ≤ left }
    requires small { Small (length productive.now) codes.now }
    requires small_2 { Small (length marks.old) codes.now }
    ensures { Passed (Led productive.now left codes.now) (LedMarks productive.now left codes.now)
        marks.old marks.new result }
{
    if !is_marked(left, marks) {
        return 0;
    }
    if !all_marked(codes, productive) {
        return 0;
    }
    mark_codes(codes, marks)
}

// One pass for trees, from the last rule, whose codes end at `used`, to the first.
fn derive_all(rules: &Rules<'_>, marks: &mut [u8]) -> usize
    requires marks_len { length marks.old ≡ limits.max_nonterminals }
    ensures { Passed (AllDerived rules.now.lefts.now rules.now.lengths.now rules.now.codes.now 0 rules.now.count)
        (AllDerivedMarks rules.now.lefts.now rules.now.lengths.now rules.now.codes.now 0 rules.now.count) marks.old marks.new result }
{
    let mut n = 0;
    let mut u = rules.used;
    for i in (0..rules.count).rev() {
        let e = u;
        u -= usize::from(rules.lengths[i]);
        n += derive(rules.lefts[i], &rules.codes[u..e], marks);
    }
    n
}

// One pass for what S reaches, from the first rule to the last.
fn lead_all(rules: &Rules<'_>, productive: &[u8], marks: &mut [u8]) -> usize
    requires productive_len { length productive.now ≡ limits.max_nonterminals }
    requires marks_len { length marks.old ≡ limits.max_nonterminals }
    ensures { Passed (AllLed rules.now.lefts.now rules.now.lengths.now rules.now.codes.now productive.now 0 rules.now.count)
        (AllLedMarks rules.now.lefts.now rules.now.lengths.now rules.now.codes.now productive.now 0 rules.now.count) marks.old marks.new result }
{
    let mut n = 0;
    let mut u = 0;
    for i in 0..rules.count {
        let e = u + usize::from(rules.lengths[i]);
        n += lead(rules.lefts[i], &rules.codes[u..e], productive, marks);
        u = e;
    }
    n
}

// Marks the nonterminals that have a tree.
pub fn mark_productive(rules: &Rules<'_>, marks: &mut [u8])
    requires marks_len { length marks.old ≡ limits.max_nonterminals }
    ensures { Finished (AllDerived rules.now.lefts.now rules.now.lengths.now rules.now.codes.now 0 rules.now.count)
        (AllDerivedMarks rules.now.lefts.now rules.now.lengths.now rules.now.codes.now 0 rules.now.count) marks.old marks.new }
{
    let mut fresh = 1;
    while 0 < fresh {
        fresh = derive_all(rules, marks);
    }
}

// Marks what the marked nonterminals reach through rules that can stand in a tree.
pub fn mark_reachable(rules: &Rules<'_>, productive: &[u8], marks: &mut [u8])
    requires productive_len { length productive.now ≡ limits.max_nonterminals }
    requires marks_len { length marks.old ≡ limits.max_nonterminals }
    ensures { Finished (AllLed rules.now.lefts.now rules.now.lengths.now rules.now.codes.now productive.now 0 rules.now.count)
        (AllLedMarks rules.now.lefts.now rules.now.lengths.now rules.now.codes.now productive.now 0 rules.now.count) marks.old marks.new }
{
    let mut fresh = 1;
    while 0 < fresh {
        fresh = lead_all(rules, productive, marks);
    }
}
