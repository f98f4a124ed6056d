// The level above a level: sized, written if it has room, and made ready for the one above it.
ghost use Rattle.std.specs.Prelude.{ℕ};
ghost use Rattle.grammar.specs.Grammar.{Grammar};
ghost use Rattle.caller_rows.specs.Levels.{written_from, Level, Added};

use super::level::write_level;
use super::ranks::next_ranks;
use super::widths::{STARTS, pass_widths, size_level};
use caller_rule::Rows;
use grammar::{MAX_RULES, MAX_STATES};

// The next level, in place of the q states of the one below it: its rows; of each rule the number of its chains, and of each state
// the rank of its chain. Returns how many states it has; if these are too many, nothing is written.
pub fn add_level<'a>(
    lefts: &'a [u16; MAX_RULES],
    lengths: &'a [u16; MAX_RULES],
    codes: &'a [u16; MAX_STATES],
    count: usize,
    n: u16,
    live: &'a [u8; MAX_RULES],
    q: usize,
    below: &mut [u16; MAX_RULES],
    ranks: &mut [u16; MAX_STATES],
    ahead: &mut [u16; MAX_STATES],
    number: &mut [u16; MAX_STATES],
    member: &mut [u16; MAX_STATES],
    target: &mut [u16; MAX_STATES],
    after: &mut [u16; MAX_STATES],
) -> usize
    requires { (G : Grammar) × (m : ℕ) × Level G m (written_from G n count lefts.now lengths.now codes.now) live.now q ahead.old below.old ranks.old }
    ensures { (G : Grammar) (m : ℕ) → Level G m (written_from G n count lefts.now lengths.now codes.now) live.now q ahead.old below.old ranks.old
        → Added G m (written_from G n count lefts.now lengths.now codes.now) live.now result ahead.new number.new member.new target.new after.new
        below.new ranks.new }
{
    let mut first = [0u16; STARTS];
    let mut callers = [0u16; MAX_STATES];
    let mut widths = [0u16; MAX_RULES];
    let states = size_level(
        lefts,
        lengths,
        count,
        n,
        live,
        ahead,
        q,
        &mut first,
        &mut callers,
        &mut widths,
    );
    if MAX_STATES < states {
        return states;
    }
    let mut down = [0u16; MAX_STATES];
    let mut rows = Rows {
        ahead,
        number,
        member,
        target,
        after,
        down: &mut down,
    };
    write_level(
        lefts, lengths, codes, count, q as u16, &first, &callers, below, &widths, ranks, &mut rows,
    );
    next_ranks(&first, &callers, n, rows.down, states, ranks);
    pass_widths(&widths, count, below);
    states
}
