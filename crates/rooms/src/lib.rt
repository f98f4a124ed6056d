// What a search is to be lent, from the tables alone: no search is made.

#![tactic(auto)]

ghost use Rattle.std.specs.Prelude.{◌≡◌, ◌+◌, ◌≤◌};
ghost use Rattle.grammar.specs.Limits.{limits};
ghost use Rattle.figures.specs.Sum.{sum};
ghost use Rattle.plans.specs.Clauses.{SideFits, Fits};
ghost use Rattle.rooms.specs.Clauses.{moves_at};
ghost use Rattle.rooms.specs.Room.{RoomAnswer};

use grammar::{Cause, MAX_STATES, TableVerdict};
use moves::CLASSES;

// Q, the bytes of the certificate, the entries of each of the three rows, and the number of moves; or the table's first refusal.
#[derive(Drop)]
pub enum SearchRoom {
    Room {
        states: usize,
        certificate: usize,
        entries: usize,
        moves: usize,
    },
    Refused(Cause, usize),
}

// The number of a state's moves: the targets of its class, and the shift of a symbol ahead, terminal or nonterminal.
fn moves_at<'a>(
    ahead: &'a [u16; MAX_STATES],
    member: &'a [u16; MAX_STATES],
    first: &'a [u16; CLASSES],
    p: usize,
) -> usize
    requires { SideFits member.now first.now p }
    ensures { (result ≡ moves_at ahead.now member.now first.now p) × (result ≤ limits.max_states + 1) }
{
    let side = plans::side_of(member, first, p);
    if ahead[p] < 1 {
        return side.span;
    }
    side.span + 1
}

// The number of moves of q states.
fn count_moves<'a>(
    ahead: &'a [u16; MAX_STATES],
    member: &'a [u16; MAX_STATES],
    first: &'a [u16; CLASSES],
    q: usize,
) -> usize
    requires { Fits member.now first.now q }
    ensures { result ≡ sum (moves_at ahead.now member.now first.now) q }
{
    let mut count = 0;
    for p in 0..q {
        count += moves_at(ahead, member, first, p);
    }
    count
}

// The room of a search with so many callers.
pub fn search_room(t: usize, n: usize, table: &[u16], callers: usize) -> SearchRoom
    ensures { RoomAnswer t n table.now callers result }
{
    let mut ahead = [0u16; MAX_STATES];
    let mut number = [0u16; MAX_STATES];
    let mut member = [0u16; MAX_STATES];
    let mut target = [0u16; MAX_STATES];
    let mut first = [0u16; CLASSES];
    let mut targets = [0u16; MAX_STATES];
    let mut after = [0u16; MAX_STATES];
    let w = prepared::prepare(
        t,
        n,
        table,
        callers,
        &mut ahead,
        &mut number,
        &mut member,
        &mut target,
        &mut first,
        &mut targets,
        &mut after,
    );
    let verdict = w.verdict;
    match verdict {
        TableVerdict::Refused(cause, at) => {
            return SearchRoom::Refused(cause, at);
        }
        TableVerdict::Passed => {
            let q = w.states;
            let entries = 2 * (q * q);
            let certificate = (entries + 7) / 8;
            let moves = count_moves(&ahead, &member, &first, q);
            return SearchRoom::Room {
                states: q,
                certificate,
                entries,
                moves,
            };
        }
    }
}
