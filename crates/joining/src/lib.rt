// A module's grammar text joined to the robot's: the joined table, the joined text, and the name of a joined symbol as a part of the text
// that declared it. Both texts are read into local rows before a lent row is written.

#![tactic(auto)]

mod gathering;
mod joins;
mod naming;
mod rules;
mod shown;
mod writing;

ghost use Rattle.std.specs.Prelude.{◌≡◌, length};
ghost use Rattle.modules.specs.Promise.{JoinsTexts};

use grammar::{Cause, MAX_NAMES, MAX_NONTERMINALS, MAX_TERMINALS};
use joins::join_kept;
pub use shown::{joined_name, joined_place};
use text::TextRead;
use text_read::KEPT_ENTRIES;
pub use writing::write_joined;

// How many names of each kind there are together.
#[derive(Drop)]
pub enum Counts {
    Names {
        terminals: usize,
        nonterminals: usize,
    },
    Fault(Cause, usize),
}

// How many names each list has: t and n of the robot, u and v of the module, and the joined ones.
#[derive(Clone, Copy)]
pub struct ListSizes {
    pub t: usize,
    pub n: usize,
    pub u: usize,
    pub v: usize,
    pub terminals: usize,
    pub nonterminals: usize,
}

// What two texts give: the lists' sizes, the entries of the joined table and Q.
#[derive(Drop)]
pub enum Join {
    Joined {
        sizes: ListSizes,
        entries: usize,
        states: usize,
    },
    Refused(Cause, usize),
}

// The joined table: t, n, the number of its entries and Q, with the table at the front of the lent row; or the first refusal in the
// documents' order, which changes nothing.
pub fn join_texts(robot: &[u8], addon: &[u8], table: &mut [u16]) -> TextRead
    ensures { JoinsTexts robot.now addon.now table.old result table.new }
{
    let mut row = [0u16; KEPT_ENTRIES];
    let mut starts = [0u32; MAX_NAMES];
    let mut lengths = [0u32; MAX_NAMES];
    let mut rules = [0u16; KEPT_ENTRIES];
    let mut firsts = [0u32; MAX_NAMES];
    let mut sizes = [0u32; MAX_NAMES];
    let mut terminals = [0u32; MAX_TERMINALS];
    let mut nonterminals = [0u32; MAX_NONTERMINALS];
    match join_kept(
        robot,
        addon,
        &mut row,
        &mut starts,
        &mut lengths,
        &mut rules,
        &mut firsts,
        &mut sizes,
        &mut terminals,
        &mut nonterminals,
    ) {
        Join::Refused(cause, at) => TextRead::Refused(cause, at),
        Join::Joined {
            sizes,
            entries,
            states,
        } => {
            if table.len() < entries {
                return TextRead::Refused(Cause::BufferTooShort, 0);
            }
            copying::copy(&mut table[..entries], &row[..entries]);
            TextRead::Read {
                terminals: sizes.terminals,
                nonterminals: sizes.nonterminals,
                entries,
                states,
            }
        }
    }
}
