// The name of a joined symbol, as a part of the text that declared it.
ghost use Rattle.std.specs.Prelude.{◌≡◌, ℕ, ◌+◌, ◌≤◌, ◌<◌, eqb, length, get_or};
ghost use Rattle.grammar.specs.Limits.{limits};
ghost use Rattle.text.specs.Names.{place};
ghost use Rattle.modules.specs.Shown.{shown, part_at, part_of, Inside};
ghost use Rattle.joining.specs.Joins.{PlaceReady};
ghost use Rattle.modules.specs.Promise.{ShowsPlace, ShowsName};
ghost use Rattle.modules.specs.declared.Place.TheVariants.{Robot, Module};

use super::joins::join_kept;
use super::{Join, ListSizes};
use grammar::{MAX_NAMES, MAX_NONTERMINALS, MAX_TERMINALS};
use modules::Place;
use text_read::KEPT_ENTRIES;

// The place of the first entry that is i, or how many there are.
fn entry_of(numbers: &[u32], i: usize) -> usize
    ensures { result ≡ place (λ (x : ℕ). eqb x i) numbers.now }
{
    numbers
        .iter()
        .position(|number| *number as usize == i)
        .unwrap_or(numbers.len())
}

// Where name j of the robot's text stands, and where name j of the module's does.
fn robot_at(starts: &[u32], lengths: &[u32], j: usize) -> Place
    requires { (j < length starts.now) × (j < length lengths.now) }
    ensures { result ≡ Robot (get_or starts.now j 0) (get_or lengths.now j 0) }
{
    Place::Robot(starts[j] as usize, lengths[j] as usize)
}

fn module_at(firsts: &[u32], widths: &[u32], j: usize) -> Place
    requires { (j < length firsts.now) × (j < length widths.now) }
    ensures { result ≡ Module (get_or firsts.now j 0) (get_or widths.now j 0) }
{
    Place::Module(firsts[j] as usize, widths[j] as usize)
}

// Where the name of symbol i stands: the robot's symbols come first of each kind, the others are the module's whose number they are.
fn place_of(
    robot: &[u8],
    addon: &[u8],
    sizes: ListSizes,
    starts: &[u32],
    lengths: &[u32],
    firsts: &[u32],
    widths: &[u32],
    terminals: &[u32],
    nonterminals: &[u32],
    i: usize,
) -> Place
    requires { PlaceReady robot.now addon.now sizes starts.now lengths.now firsts.now widths.now terminals.now nonterminals.now }
    ensures { (result ≡ shown limits robot.now addon.now i) × (Inside robot.now addon.now result) }
{
    if i < sizes.t {
        return robot_at(starts, lengths, i);
    }
    if i < sizes.terminals {
        return module_at(firsts, widths, entry_of(&terminals[..sizes.u], i));
    }
    let k = i - sizes.terminals;
    if k < sizes.n {
        return robot_at(starts, lengths, sizes.t + k);
    }
    if k < sizes.nonterminals {
        return module_at(
            firsts,
            widths,
            sizes.u + entry_of(&nonterminals[..sizes.v], k),
        );
    }
    Place::Neither
}

// Where the name that is shown for symbol i stands.
pub fn joined_place(robot: &[u8], addon: &[u8], i: usize) -> Place
    ensures { ShowsPlace robot.now addon.now i result }
{
    let mut row = [0u16; KEPT_ENTRIES];
    let mut starts = [0u32; MAX_NAMES];
    let mut lengths = [0u32; MAX_NAMES];
    let mut rules = [0u16; KEPT_ENTRIES];
    let mut firsts = [0u32; MAX_NAMES];
    let mut widths = [0u32; MAX_NAMES];
    let mut terminals = [0u32; MAX_TERMINALS];
    let mut nonterminals = [0u32; MAX_NONTERMINALS];
    match join_kept(
        robot,
        addon,
        &mut row,
        &mut starts,
        &mut lengths,
        &mut rules,
        &mut firsts,
        &mut widths,
        &mut terminals,
        &mut nonterminals,
    ) {
        Join::Refused(_, _) => Place::Neither,
        Join::Joined {
            sizes,
            entries: _,
            states: _,
        } => place_of(
            robot,
            addon,
            sizes,
            &starts,
            &lengths,
            &firsts,
            &widths,
            &terminals,
            &nonterminals,
            i,
        ),
    }
}

// A part of a text.
fn part_at(text: &[u8], start: usize, size: usize) -> &[u8]
    requires { start + size ≤ length text.now }
    ensures { result.now ≡ part_at text.now start size }
{
    let end = start + size;
    &text[start..end]
}

// The part of the robot's text or of the module's at a place; both are lent with one lifetime.
fn part_of<'a>(robot: &'a [u8], addon: &'a [u8], place: Place) -> &'a [u8]
    requires { Inside robot.now addon.now place }
    ensures { result.now ≡ part_of robot.now addon.now place }
{
    match place {
        Place::Robot(start, size) => part_at(robot, start, size),
        Place::Module(start, size) => part_at(addon, start, size),
        Place::Neither => &robot[0..0],
    }
}

// The name that is shown for symbol i: the part of the text that declared it, the robot's where both did; empty for a symbol of neither,
// or for texts that are refused other than with 14.
pub fn joined_name<'a>(robot: &'a [u8], addon: &'a [u8], i: usize) -> &'a [u8]
    ensures { ShowsName robot.now addon.now i result.now }
{
    let place = joined_place(robot, addon, i);
    part_of(robot, addon, place)
}
