// The module's rules among the joined ones: their codes by the numbers counted off, and those that the robot has left out.
ghost use Rattle.std.specs.Prelude.{◌≡◌, map, ◌+◌, ◌≤◌, ◌<◌, length, take};
ghost use Rattle.std.proofs.Math.Seq.{paste};
ghost use Rattle.grammar.specs.Basics.{choose};
ghost use Rattle.grammar.specs.Limits.{limits};
ghost use Rattle.grammar.specs.Table.{decode, rule_at};
ghost use Rattle.grammar.specs.TableCheck.{is_among};
ghost use Rattle.joining.specs.Naming.{recoded, Recoding, AllRecoding, RulesReady, RulesPut};
ghost use Rattle.joining.specs.RuleRows.{RuleReady, RulePut, RulesBefore};

use grammar::NONTERMINAL_BASE;

// The code of a symbol of the module among the joined ones, by the numbers counted off for its terminals and its nonterminals.
fn recode(terminals: &[u32], nonterminals: &[u32], code: u16) -> u16
    requires { Recoding terminals.now nonterminals.now code }
    ensures { result ≡ recoded limits terminals.now nonterminals.now code }
{
    if code < NONTERMINAL_BASE {
        return terminals[(code - 1) as usize] as u16 + 1;
    }
    NONTERMINAL_BASE + nonterminals[(code - NONTERMINAL_BASE) as usize] as u16
}

// Puts codes of the module, recoded, into a row from a place on.
fn put_recoded(terminals: &[u32], nonterminals: &[u32], codes: &[u16], row: &mut [u16], at: usize)
    requires { (AllRecoding terminals.now nonterminals.now codes.now) × (at + length codes.now ≤ length row.old) }
    ensures { row.new ≡ paste row.old at (map (recoded limits terminals.now nonterminals.now) codes.now) (length codes.now) }
{
    for (i, code) in codes.iter().enumerate() {
        row[at + i] = recode(terminals, nonterminals, *code);
    }
}

// Puts a rule of the module, recoded, into a row from a place on.
fn put_rule(terminals: &[u32], nonterminals: &[u32], rule: &[u16], row: &mut [u16], at: usize)
    requires { RuleReady terminals.now nonterminals.now rule.now row.old at }
    ensures { RulePut terminals.now nonterminals.now rule.now row.old at row.new }
{
    row[at] = recode(terminals, nonterminals, rule[0]);
    row[at + 1] = rule[1];
    put_recoded(terminals, nonterminals, &rule[2..], row, at + 2);
}

// Does the rule of length k at a place stand among those of the row's first entries?
fn stands_before(row: &[u16], end: usize, at: usize, k: usize) -> bool
    requires { RulesBefore row.now end at k }
    ensures { result ≡ is_among (rule_at row.now at k) (decode (take end row.now)) }
{
    let mut o = 0;
    while o < end {
        let m = row[o + 1] as usize;
        if table_check::same_rule(row, o, m, at, k) {
            return true;
        }
        o += 2 + m;
    }
    false
}

// Where the next rule goes after the one of length k at a place: there too if it stands among those of the row's first entries, else
// behind it.
fn next_place(row: &[u16], end: usize, at: usize, k: usize) -> usize
    requires { RulesBefore row.now end at k }
    ensures { result ≡ choose (is_among (rule_at row.now at k) (decode (take end row.now))) at (at + 2 + k) }
{
    if stands_before(row, end, at, k) {
        return at;
    }
    at + 2 + k
}

// Puts the rules of the module's table after the robot's, of which the row has so many entries, unless the robot has them already. Gives
// how many entries there are together.
pub fn put_rules(
    table: &[u16],
    terminals: &[u32],
    nonterminals: &[u32],
    row: &mut [u16],
    end: usize,
) -> usize
    requires { RulesReady table.now terminals.now nonterminals.now row.old end }
    ensures { RulesPut table.now terminals.now nonterminals.now row.old end row.new result }
{
    let mut to = end;
    let mut at = 0;
    while at < table.len() {
        let k = table[at + 1] as usize;
        put_rule(terminals, nonterminals, &table[at..at + 2 + k], row, to);
        to = next_place(row, end, to, k);
        at += 2 + k;
    }
    to
}
