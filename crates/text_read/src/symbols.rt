// The codes of symbols.
ghost use Rattle.std.specs.Prelude.{◌≡◌, ◌+◌, ◌≤◌, ◌<◌};
ghost use Rattle.grammar.specs.Limits.{limits};
ghost use Rattle.text.specs.Read.{code_of};

use grammar::NONTERMINAL_BASE;

// The code of symbol number i, of t terminals.
pub fn code_of(t: usize, i: usize) -> u16
    requires { (t ≤ limits.max_terminals) × (i < t + limits.max_nonterminals) }
    ensures { result ≡ code_of limits t i }
{
    if i < t {
        return (i + 1) as u16;
    }
    NONTERMINAL_BASE + (i - t) as u16
}
