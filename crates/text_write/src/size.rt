// The length of the printed text, before a byte of it is written.
ghost use Rattle.std.specs.Prelude.{◌≡◌, map, ◌≤◌, length};
ghost use Rattle.grammar.specs.Limits.{limits};
ghost use Rattle.grammar.specs.Table.{decode};
ghost use Rattle.text.specs.Read.{symbol_of};
ghost use Rattle.text_write.specs.Length.{led_length, join_length, code_length, rules_length, text_length};
ghost use Rattle.text_write.specs.Clauses.{Known, Coded};

use grammar::NONTERMINAL_BASE;

// The symbol number of a code, where there are t terminals.
pub fn symbol(t: usize, code: u16) -> usize
    requires { (1 ≤ code) × (t ≤ limits.max_terminals) }
    ensures { result ≡ symbol_of limits t code }
{
    if code < NONTERMINAL_BASE {
        return (code - 1) as usize;
    }
    t + (code - NONTERMINAL_BASE) as usize
}

// Names of these lengths, with a byte before each.
fn led_length(lengths: &[u32]) -> usize
    requires { led_length lengths.now ≤ limits.max_text }
    ensures { result ≡ led_length lengths.now }
{
    let mut total = 0;
    for length in lengths {
        total += *length as usize + 1;
    }
    total
}

// The same with a byte between them.
fn join_length(lengths: &[u32]) -> usize
    requires { join_length lengths.now ≤ limits.max_text }
    ensures { result ≡ join_length lengths.now }
{
    match lengths {
        [] => 0,
        [first, others @ ..] => *first as usize + led_length(others),
    }
}

// The names of codes, with a byte before each.
fn codes_length(codes: &[u16], t: usize, lengths: &[u32]) -> usize
    requires { Known t (length lengths.now) codes.now
        × (led_length (map (code_length limits t lengths.now) codes.now) ≤ limits.max_text) }
    ensures { result ≡ led_length (map (code_length limits t lengths.now) codes.now) }
{
    let mut total = 0;
    for code in codes {
        let s = symbol(t, *code);
        total += lengths[s] as usize + 1;
    }
    total
}

// The lines of all rules.
fn rules_length(table: &[u16], t: usize, lengths: &[u32]) -> usize
    requires { Coded t (length lengths.now) table.now
        × (rules_length limits t lengths.now (decode table.now) ≤ limits.max_text) }
    ensures { result ≡ rules_length limits t lengths.now (decode table.now) }
{
    let mut total = 0;
    let mut o = 0;
    while o < table.len() {
        let s = symbol(t, table[o]);
        let k = table[o + 1] as usize;
        let a = o + 2;
        let e = a + k;
        total = total + 7 + lengths[s] as usize + codes_length(&table[a..e], t, lengths);
        o = e;
    }
    total
}

// The whole text.
pub fn text_length(table: &[u16], t: usize, lengths: &[u32]) -> usize
    requires { Coded t (length lengths.now) table.now × (t ≤ length lengths.now)
        × (text_length limits t lengths.now (decode table.now) ≤ limits.max_text) }
    ensures { result ≡ text_length limits t lengths.now (decode table.now) }
{
    let x = join_length(&lengths[..t]);
    let y = join_length(&lengths[t..]);
    25 + x + y + rules_length(table, t, lengths)
}
