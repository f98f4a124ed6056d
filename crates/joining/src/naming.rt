// The module's names among the robot's: is one of the other kind, and which numbers they get in the joined lists.
ghost use Rattle.std.specs.Prelude.{◌≡◌, ◌+◌, ◌≤◌, ◌<◌, [], length, get_or, take, drop, ltb};
ghost use Rattle.grammar.specs.Basics.{choose, over};
ghost use Rattle.text.specs.Names.{same_name, place};
ghost use Rattle.text.specs.Spelled.{spelled};
ghost use Rattle.lexicon.specs.Tree.{Spans, Lexicon};
ghost use Rattle.modules.specs.Joined.{meet, added};
ghost use Rattle.joining.specs.Numbers.{numbered};
ghost use Rattle.joining.specs.Naming.{Numbering, Kind, KindTold, BothNamed, CountsTold};

use super::Counts;
use grammar::{Cause, MAX_NAMES, MAX_NONTERMINALS, MAX_TERMINALS};

// The number that the module's name i has among the robot's names, or how many these are.
fn number_of(
    robot: &[u8],
    starts: &[u32],
    lengths: &[u32],
    links: &[u16],
    addon: &[u8],
    firsts: &[u32],
    sizes: &[u32],
    i: usize,
) -> usize
    requires { (Lexicon robot.now starts.now lengths.now links.now) × (Spans addon.now firsts.now sizes.now) × (i < length firsts.now) }
    ensures { result ≡ place (same_name (get_or (spelled addon.now firsts.now sizes.now) i [])) (spelled robot.now starts.now lengths.now) }
{
    let a = firsts[i] as usize;
    let e = a + sizes[i] as usize;
    lexicon::find(robot, starts, lengths, links, &addon[a..e])
}

// Is one of the module's names among these of the robot?
fn meets(
    robot: &[u8],
    starts: &[u32],
    lengths: &[u32],
    links: &[u16],
    addon: &[u8],
    firsts: &[u32],
    sizes: &[u32],
) -> bool
    requires { (Lexicon robot.now starts.now lengths.now links.now) × (Spans addon.now firsts.now sizes.now) }
    ensures { result ≡ meet (spelled addon.now firsts.now sizes.now) (spelled robot.now starts.now lengths.now) }
{
    let n = starts.len();
    for i in 0..firsts.len() {
        if number_of(robot, starts, lengths, links, addon, firsts, sizes, i) < n {
            return true;
        }
    }
    false
}

// Counts off the module's names: one that the robot has keeps its number there, the others follow in their order. Gives how many
// names there are together.
fn number_names(
    robot: &[u8],
    starts: &[u32],
    lengths: &[u32],
    links: &[u16],
    addon: &[u8],
    firsts: &[u32],
    sizes: &[u32],
    numbers: &mut [u32],
) -> usize
    requires { Numbering robot.now starts.now lengths.now links.now addon.now firsts.now sizes.now numbers.old }
    ensures count { result ≡ length starts.now + length (added (spelled robot.now starts.now lengths.now) (spelled addon.now firsts.now sizes.now)) }
    ensures row { numbers.new ≡ over (numbered (spelled robot.now starts.now lengths.now) (length starts.now) (spelled addon.now firsts.now sizes.now)) numbers.old }
{
    let n = starts.len();
    let mut next = n;
    for i in 0..firsts.len() {
        let k = number_of(robot, starts, lengths, links, addon, firsts, sizes, i);
        if k < n {
            numbers[i] = k as u32;
        } else {
            numbers[i] = next as u32;
            next += 1;
        }
    }
    next
}

// Names of one kind: how many there are together, and the numbers of the module's; none where it has one as the other kind.
pub fn match_kind(
    robot: &[u8],
    starts: &[u32],
    lengths: &[u32],
    addon: &[u8],
    firsts: &[u32],
    sizes: &[u32],
    others: &[u32],
    widths: &[u32],
    numbers: &mut [u32],
) -> Option<usize>
    requires { Kind robot.now starts.now lengths.now addon.now firsts.now sizes.now others.now widths.now numbers.old }
    ensures { KindTold (spelled robot.now starts.now lengths.now) (spelled addon.now firsts.now sizes.now) (spelled addon.now others.now widths.now) numbers.old numbers.new result }
{
    let mut links = [0u16; 2 * MAX_NAMES];
    lexicon::plant(robot, starts, lengths, &mut links);
    if meets(robot, starts, lengths, &links, addon, others, widths) {
        return None;
    }
    Some(number_names(
        robot, starts, lengths, &links, addon, firsts, sizes, numbers,
    ))
}

// Both kinds, terminals and nonterminals of the robot and of the module: 20 at 1 and at 2, then 1 at 1 and at 2.
fn count_kinds(
    robot: &[u8],
    ts: &[u32],
    tl: &[u32],
    ns: &[u32],
    nl: &[u32],
    addon: &[u8],
    us: &[u32],
    ul: &[u32],
    vs: &[u32],
    vl: &[u32],
    terminals: &mut [u32],
    nonterminals: &mut [u32],
) -> Counts
    requires { (Kind robot.now ts.now tl.now addon.now us.now ul.now vs.now vl.now terminals.old) × (Kind robot.now ns.now nl.now addon.now vs.now vl.now us.now ul.now nonterminals.old) }
    ensures { CountsTold (spelled robot.now ts.now tl.now) (spelled robot.now ns.now nl.now)
        (spelled addon.now us.now ul.now) (spelled addon.now vs.now vl.now)
        terminals.old nonterminals.old terminals.new nonterminals.new result }
{
    let Some(b) = match_kind(robot, ns, nl, addon, vs, vl, us, ul, nonterminals) else {
        return Counts::Fault(Cause::KindsClash, 1);
    };
    let Some(a) = match_kind(robot, ts, tl, addon, us, ul, vs, vl, terminals) else {
        return Counts::Fault(Cause::KindsClash, 2);
    };
    if MAX_TERMINALS < a {
        return Counts::Fault(Cause::OutOfRange, 1);
    }
    if MAX_NONTERMINALS < b {
        return Counts::Fault(Cause::OutOfRange, 2);
    }
    Counts::Names {
        terminals: a,
        nonterminals: b,
    }
}

// The names of both texts, of which the first t of the robot and u of the module are terminals.
pub fn join_names(
    robot: &[u8],
    starts: &[u32],
    lengths: &[u32],
    t: usize,
    addon: &[u8],
    firsts: &[u32],
    sizes: &[u32],
    u: usize,
    terminals: &mut [u32],
    nonterminals: &mut [u32],
) -> Counts
    requires { BothNamed robot.now starts.now lengths.now t addon.now firsts.now sizes.now u terminals.old nonterminals.old }
    ensures { CountsTold (spelled robot.now (take t starts.now) (take t lengths.now)) (spelled robot.now (drop t starts.now) (drop t lengths.now))
        (spelled addon.now (take u firsts.now) (take u sizes.now)) (spelled addon.now (drop u firsts.now) (drop u sizes.now))
        terminals.old nonterminals.old terminals.new nonterminals.new result }
{
    count_kinds(
        robot,
        &starts[..t],
        &lengths[..t],
        &starts[t..],
        &lengths[t..],
        addon,
        &firsts[..u],
        &sizes[..u],
        &firsts[u..],
        &sizes[u..],
        terminals,
        nonterminals,
    )
}
