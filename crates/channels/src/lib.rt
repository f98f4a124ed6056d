// The eight-channel command set: its table as a constant, and a row of its terminals read to its one plan.
// certificate.rt has its certificate.

#![tactic(auto)]

mod certificate;

ghost use Rattle.std.specs.Prelude.{◌≡◌};
ghost use Rattle.trees.specs.Promise.{FindsTrees};
ghost use Rattle.channels.specs.Commands.{commands, table};
ghost use Rattle.channels.specs.Promise.{ReadsPlan, plan_room};

use ambiguity::{TreesFound, find_trees};
pub use certificate::certificate_byte;
pub use grammar::Cause;
use trees::PLACES;

const TERMINALS: usize = 8;

const NONTERMINALS: usize = 3;

const STATES: usize = 27;

// The seven rules: P -> ; P -> P K; K -> take L vol; K -> give L vol; K -> repeat num P close; L -> ch; L -> L sep ch.
const TABLE: [u16; 30] = [
    0x8000, 0, 0x8000, 2, 0x8000, 0x8001, 0x8001, 3, 1, 0x8002, 2, 0x8001, 3, 3, 0x8002, 2, 0x8001,
    4, 4, 5, 0x8000, 6, 0x8002, 1, 7, 0x8002, 3, 0x8002, 8, 7,
];

// No plan, the plan's number of rules, or a refusal: several is no case.
#[derive(Drop)]
pub enum PlanRead {
    Nothing,
    Plan(usize),
    Refused(Cause, usize),
}

// The trees of a row of the command set's terminals.
fn plan_trees<'a>(row: &'a [u16], work: &'a mut [u32], list: &'a mut [u16]) -> TreesFound
    ensures { FindsTrees commands.terminals commands.nonterminals table row.now work.old list.old result work.new list.new }
{
    find_trees(TERMINALS, NONTERMINALS, &TABLE, row, work, list)
}

// The rules of the row's one plan in front of the list, and how many they are; or none, or the first refusal.
pub fn read_plan<'a>(row: &'a [u16], work: &'a mut [u32], list: &'a mut [u16]) -> PlanRead
    ensures { ReadsPlan row.now work.old list.old result work.new list.new }
{
    let found = plan_trees(row, work, list);
    match found {
        TreesFound::Nothing => {
            return PlanRead::Nothing;
        }
        TreesFound::One(k) => {
            return PlanRead::Plan(k);
        }
        // this never happens, by the certificate
        TreesFound::Several => {
            return PlanRead::Nothing;
        }
        TreesFound::Refused(cause, at) => {
            return PlanRead::Refused(cause, at);
        }
    }
}

// How long the work row must be: 65 × 65 × 27 entries.
pub fn plan_room() -> usize
    ensures { result ≡ plan_room }
{
    PLACES * PLACES * STATES
}
