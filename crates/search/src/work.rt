// The search over what is lent. While it runs the marks and flags stand in the top bytes of the parents' entries, of which they need
// half: these are cleared first. No row is local, so the stack does not grow with Q.
ghost use Rattle.plans.specs.Plan.{rows};
ghost use Rattle.search.specs.Promise.{lent};
ghost use Rattle.explore.specs.State.{Laid};
ghost use Rattle.search.specs.Finish.{Enough, Searched};

use super::SearchVerdict;
use super::finish::answer;
use clearing::clear;
use grammar::MAX_STATES;
use moves::CLASSES;

// Explores, answers, and clears the work rows.
pub fn search_rows<'a>(
    ahead: &'a [u16; MAX_STATES],
    number: &'a [u16; MAX_STATES],
    member: &'a [u16; MAX_STATES],
    first: &'a [u16; CLASSES],
    after: &'a [u16; MAX_STATES],
    targets: &'a [u16; MAX_STATES],
    t: u16,
    m: u16,
    q: usize,
    certificate: &mut [u8],
    queue: &mut [u32],
    parents: &mut [u32],
    witness: &mut [u32],
) -> SearchVerdict
    requires laid { Laid (rows ahead.now number.now member.now first.now after.now) targets.now t m q }
    requires enough { Enough q (lent certificate.old queue.old parents.old witness.old) }
    ensures { Searched (rows ahead.now number.now member.now first.now after.now) targets.now t m q
        (lent certificate.old queue.old parents.old witness.old) result
        (lent certificate.new queue.new parents.new witness.new) }
{
    let square = q * q;
    clear(parents, square + 1);
    let found = explore::explore(
        ahead, number, member, first, after, targets, t, m, q, queue, parents,
    );
    let r = answer(
        queue,
        parents,
        q,
        found.count,
        found.looked,
        certificate,
        witness,
    );
    let n = 2 * square;
    clear(queue, n);
    clear(parents, n);
    r
}
