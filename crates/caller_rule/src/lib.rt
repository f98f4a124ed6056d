// The states of one rule with its callers: dot by dot, caller by caller, in rows of numbers that are lent.

#![tactic(auto)]

ghost use Rattle.std.specs.Prelude.{◌≡◌, ◌+◌, ◌*◌, ◌≤◌, eqb, length, get_or};
ghost use Rattle.std.specs.Option.{is_none, unwrap_or};
ghost use Rattle.grammar.specs.Limits.{limits};
ghost use Rattle.caller_rule.specs.RuleRows.{member_class, target_class, Small, Wide, ItemWritten, code_before, low_before, Ruled, RuleWritten};
ghost use Rattle.caller_rule.specs.Lent.{six_of, SameLoans};

use grammar::NONTERMINAL_BASE;

// Six rows with an entry for each state: the code ahead, the rule's number, the class that the state moves by and the class that leads to
// it, the state after a shift, and what the state is with its farthest caller dropped.
#[derive(Drop)]
pub struct Rows<'a> {
    pub ahead: &'a mut [u16],
    pub number: &'a mut [u16],
    pub member: &'a mut [u16],
    pub target: &'a mut [u16],
    pub after: &'a mut [u16],
    pub down: &'a mut [u16],
}

// The class that a state moves by, where `x` is the code ahead of its dot, if there is one.
fn member_class(x: Option<u16>, kinds: u16, c: u16, d: u16) -> u16
    requires { (kinds ≤ limits.max_states) × (d ≤ 2 * limits.max_states) }
    ensures { result ≡ member_class (is_none x) (unwrap_or x 0) kinds c d }
{
    match x {
        None => c,
        Some(x) if NONTERMINAL_BASE <= x => kinds + d,
        Some(_) => 2 * kinds,
    }
}

// The class that leads to it, where `y` is the code before its dot, if there is one.
fn target_class(y: Option<u16>, kinds: u16, c: u16, e: u16) -> u16
    requires { (kinds ≤ limits.max_states) × (c ≤ limits.max_states) }
    ensures { result ≡ target_class (is_none y) (unwrap_or y 0) kinds c e }
{
    match y {
        None => kinds + c,
        Some(y) if NONTERMINAL_BASE <= y => e,
        Some(_) => 2 * kinds + 1,
    }
}

// The states of one item: `x` is the code ahead of its dot, none at its end, and `y` the code before it, none at dot 0.
fn write_item<'a>(
    i: u16,
    x: Option<u16>,
    y: Option<u16>,
    kinds: u16,
    callers: &'a [u16],
    ranks: &'a [u16],
    low: u16,
    behind: u16,
    at: usize,
    rows: &mut Rows<'_>,
)
    requires small { Small callers.now ranks.now kinds low behind at }
    requires wide { Wide (at + length callers.now) (six_of rows.old) }
    ensures written { ItemWritten i (unwrap_or x 0) (unwrap_or y 0) (is_none y) (is_none x) kinds callers.now ranks.now low behind at (length callers.now)
        (six_of rows.old)
        (six_of rows.new) }
    ensures same_loans { SameLoans rows.old rows.new }
{
    let w = callers.len();
    let code = x.unwrap_or(0);
    // The loop goes over slices of its own, so that no write has it look into `rows` again.
    let ahead = &mut *rows.ahead;
    let number = &mut *rows.number;
    let member = &mut *rows.member;
    let target = &mut *rows.target;
    let after = &mut *rows.after;
    let down = &mut *rows.down;
    for (r, &c) in callers.iter().enumerate() {
        let k = ranks[usize::from(c)];
        ahead[at + r] = code;
        number[at + r] = i;
        after[at + r] = (at + r + w) as u16;
        down[at + r] = low + k;
        member[at + r] = member_class(x, kinds, c, low + k);
        target[at + r] = target_class(y, kinds, c, behind + k);
    }
}

// The code at a dot, none past the last.
fn code_at(codes: &[u16], d: usize) -> Option<u16>
    requires { d ≤ length codes.now }
    ensures code { unwrap_or result 0 ≡ get_or codes.now d 0 }
    ensures end { is_none result ≡ eqb d (length codes.now) }
{
    codes.get(d).copied()
}

// The code before a dot, none at the first.
fn code_before(codes: &[u16], d: usize) -> Option<u16>
    requires { d ≤ length codes.now }
    ensures code { unwrap_or result 0 ≡ code_before codes.now d }
    ensures begin { is_none result ≡ eqb d 0 }
{
    if d == 0 {
        return None;
    }
    codes.get(d - 1).copied()
}

// The number one dot earlier, or 0.
fn low_before(l: u16, narrow: u16, d: usize) -> u16
    requires { (d ≡ 0 → ⊥) → narrow ≤ l }
    ensures { result ≡ low_before l narrow d }
{
    if d == 0 {
        return 0;
    }
    l - narrow
}

// The states of one rule.
pub fn write_rule<'a>(
    i: u16,
    codes: &'a [u16],
    kinds: u16,
    callers: &'a [u16],
    ranks: &'a [u16],
    narrow: u16,
    low: u16,
    at: usize,
    rows: &mut Rows<'_>,
)
    requires ruled { Ruled codes.now callers.now ranks.now kinds narrow low at }
    requires wide { Wide (at + (length codes.now + 1) * length callers.now) (six_of rows.old) }
    ensures written { RuleWritten i codes.now kinds callers.now ranks.now narrow low at (length codes.now + 1)
        (six_of rows.old)
        (six_of rows.new) }
    ensures same_loans { SameLoans rows.old rows.new }
{
    let w = callers.len();
    let mut p = at;
    let mut l = low;
    for d in 0..codes.len() + 1 {
        let x = code_at(codes, d);
        let y = code_before(codes, d);
        let before = low_before(l, narrow, d);
        write_item(i, x, y, kinds, callers, ranks, l, before, p, rows);
        p += w;
        l += narrow;
    }
}
