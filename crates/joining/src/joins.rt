// Both texts read, and what is kept of them joined.
ghost use Rattle.std.specs.Prelude.{length};
ghost use Rattle.joining.specs.Joins.{JoinRows, JoinTold, BothRead};

use super::naming::join_names;
use super::rules::put_rules;
use super::{Counts, Join, ListSizes};
use text::TextRead;

// After both texts, with t, n, u, v names, and e, d entries of their tables: the names, the rules, and the last tests of the joined table.
fn join_read(
    robot: &[u8],
    addon: &[u8],
    t: usize,
    n: usize,
    e: usize,
    u: usize,
    v: usize,
    d: usize,
    row: &mut [u16],
    starts: &[u32],
    lengths: &[u32],
    table: &[u16],
    firsts: &[u32],
    sizes: &[u32],
    terminals: &mut [u32],
    nonterminals: &mut [u32],
) -> Join
    requires { BothRead robot.now addon.now t n e u v d row.old starts.now lengths.now table.now firsts.now sizes.now terminals.old nonterminals.old }
    ensures { JoinTold robot.now addon.now row.new starts.now lengths.now firsts.now sizes.now terminals.new nonterminals.new result }
{
    let m = t + n;
    let k = u + v;
    match join_names(
        robot,
        &starts[..m],
        &lengths[..m],
        t,
        addon,
        &firsts[..k],
        &sizes[..k],
        u,
        terminals,
        nonterminals,
    ) {
        Counts::Fault(cause, at) => Join::Refused(cause, at),
        Counts::Names {
            terminals: a,
            nonterminals: b,
        } => {
            let end = put_rules(&table[..d], &terminals[..u], &nonterminals[..v], row, e);
            match text_read::last_tests(a, b, row, end) {
                TextRead::Refused(cause, at) => Join::Refused(cause, at),
                TextRead::Read {
                    terminals: _,
                    nonterminals: _,
                    entries,
                    states,
                } => Join::Joined {
                    sizes: ListSizes {
                        t,
                        n,
                        u,
                        v,
                        terminals: a,
                        nonterminals: b,
                    },
                    entries,
                    states,
                },
            }
        }
    }
}

// Both texts: the robot's faults, those of the module's text read alone, then the join.
pub fn join_kept(
    robot: &[u8],
    addon: &[u8],
    row: &mut [u16],
    starts: &mut [u32],
    lengths: &mut [u32],
    table: &mut [u16],
    firsts: &mut [u32],
    sizes: &mut [u32],
    terminals: &mut [u32],
    nonterminals: &mut [u32],
) -> Join
    requires { JoinRows robot.now addon.now row.old starts.old lengths.old table.old firsts.old sizes.old terminals.old nonterminals.old }
    ensures { JoinTold robot.now addon.now row.new starts.new lengths.new firsts.new sizes.new terminals.new nonterminals.new result }
{
    match text_read::check_text(robot, row, starts, lengths) {
        TextRead::Refused(cause, at) => Join::Refused(cause, at),
        TextRead::Read {
            terminals: t,
            nonterminals: n,
            entries: e,
            states: _,
        } => match text_read::check_module(addon, table, firsts, sizes) {
            TextRead::Refused(cause, at) => Join::Refused(cause, at),
            TextRead::Read {
                terminals: u,
                nonterminals: v,
                entries: d,
                states: _,
            } => join_read(
                robot,
                addon,
                t,
                n,
                e,
                u,
                v,
                d,
                row,
                starts,
                lengths,
                table,
                firsts,
                sizes,
                terminals,
                nonterminals,
            ),
        },
    }
}
