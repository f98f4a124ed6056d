// The first four states: 0 and 1, and those of rule 0.
ghost use Rattle.std.specs.Prelude.{[], ◌∷◌, ℕ, ◌≤◌, length, get_or};
ghost use Rattle.grammar.specs.Limits.{limits};
ghost use Rattle.caller_rule.specs.RuleRows.{Wide, RuleWritten};
ghost use Rattle.caller_rule.specs.Lent.{six_of, SameLoans};
ghost use Rattle.caller_rows.specs.LevelRows.{EndsWritten, FrontWritten};

use caller_rule::Rows;
use grammar::NONTERMINAL_BASE;

// States 0 and 1.
fn write_ends(kinds: u16, rows: &mut Rows<'_>)
    requires kinds_le_max_states { kinds ≤ limits.max_states }
    requires wide { Wide 2 (six_of rows.old) }
    ensures written { EndsWritten kinds
        (six_of rows.old)
        (six_of rows.new) }
    ensures same_loans { SameLoans rows.old rows.new }
{
    rows.ahead[0] = 0;
    rows.ahead[1] = 0;
    rows.number[0] = 0;
    rows.number[1] = 0;
    rows.member[0] = kinds;
    rows.member[1] = 2 * kinds;
    rows.target[0] = 2 * kinds + 1;
    rows.target[1] = 0;
    rows.after[0] = 0;
    rows.after[1] = 0;
    rows.down[0] = 0;
    rows.down[1] = 1;
}

// The states of rule 0, which the start calls.
fn write_start(kinds: u16, ranks: &[u16], rows: &mut Rows<'_>)
    requires kinds_le_max_states { (kinds ≤ limits.max_states) × (limits.max_states ≤ length ranks.now) × ((c : ℕ) → get_or ranks.now c 0 ≤ limits.max_states) }
    requires wide { Wide 4 (six_of rows.old) }
    ensures written { RuleWritten 0 (limits.nonterminal_base ∷ []) kinds (0 ∷ []) ranks.now 1 2 2 2
        (six_of rows.old)
        (six_of rows.new) }
    ensures same_loans { SameLoans rows.old rows.new }
{
    let caller = [0u16];
    let body = [NONTERMINAL_BASE];
    caller_rule::write_rule(0, &body, kinds, &caller, ranks, 1, 2, 2, rows);
}

// States 0 and 1 and those of rule 0.
pub fn write_front(kinds: u16, ranks: &[u16], rows: &mut Rows<'_>)
    requires kinds_le_max_states { (kinds ≤ limits.max_states) × (limits.max_states ≤ length ranks.now) × ((c : ℕ) → get_or ranks.now c 0 ≤ limits.max_states) }
    requires wide { Wide 4 (six_of rows.old) }
    ensures written { FrontWritten kinds ranks.now
        (six_of rows.old)
        (six_of rows.new) }
    ensures same_loans { SameLoans rows.old rows.new }
{
    write_ends(kinds, rows);
    write_start(kinds, ranks, rows);
}
