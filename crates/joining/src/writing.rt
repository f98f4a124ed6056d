// The joined text: the names of both texts gathered, then written with the joined table.
ghost use Rattle.modules.specs.Promise.{WritesJoined};
ghost use Rattle.joining.specs.Gathering.{WriteReady};

use super::gathering::{LONGEST_NAME, gather_names};
use super::joins::join_kept;
use super::{Join, ListSizes};
use grammar::{MAX_NAMES, MAX_NONTERMINALS, MAX_TERMINALS};
use text::TextWritten;
use text_read::KEPT_ENTRIES;

// Writes the joined text from the joined table, which the row begins with.
fn write_held(
    robot: &[u8],
    addon: &[u8],
    sizes: ListSizes,
    entries: usize,
    row: &[u16],
    starts: &[u32],
    lengths: &[u32],
    firsts: &[u32],
    widths: &[u32],
    terminals: &[u32],
    nonterminals: &[u32],
    out: &mut [u8],
) -> TextWritten
    requires { WriteReady robot.now addon.now sizes entries row.now starts.now lengths.now firsts.now widths.now
        terminals.now nonterminals.now }
    ensures { WritesJoined robot.now addon.now out.old result out.new }
{
    let mut bytes = [0u8; MAX_NAMES * LONGEST_NAME];
    let mut places = [0u32; MAX_NAMES];
    let mut spans = [0u32; MAX_NAMES];
    gather_names(
        robot,
        addon,
        sizes,
        starts,
        lengths,
        firsts,
        widths,
        terminals,
        nonterminals,
        &mut bytes,
        &mut places,
        &mut spans,
    );
    text_write::write_text(
        sizes.terminals,
        sizes.nonterminals,
        &row[..entries],
        &bytes,
        &places,
        &spans,
        out,
    )
}

// The joined text at the front of the lent output, and its length; or the first refusal in the documents' order, which changes nothing.
pub fn write_joined(robot: &[u8], addon: &[u8], out: &mut [u8]) -> TextWritten
    ensures { WritesJoined robot.now addon.now out.old result out.new }
{
    let mut row = [0u16; KEPT_ENTRIES];
    let mut starts = [0u32; MAX_NAMES];
    let mut lengths = [0u32; MAX_NAMES];
    let mut rules = [0u16; KEPT_ENTRIES];
    let mut firsts = [0u32; MAX_NAMES];
    let mut widths = [0u32; MAX_NAMES];
    let mut terminals = [0u32; MAX_TERMINALS];
    let mut nonterminals = [0u32; MAX_NONTERMINALS];
    match join_kept(
        robot,
        addon,
        &mut row,
        &mut starts,
        &mut lengths,
        &mut rules,
        &mut firsts,
        &mut widths,
        &mut terminals,
        &mut nonterminals,
    ) {
        Join::Refused(cause, at) => TextWritten::Refused(cause, at),
        Join::Joined {
            sizes,
            entries,
            states: _,
        } => write_held(
            robot,
            addon,
            sizes,
            entries,
            &row,
            &starts,
            &lengths,
            &firsts,
            &widths,
            &terminals,
            &nonterminals,
            out,
        ),
    }
}
