// Letters as entries of a row.
ghost use Rattle.std.specs.Prelude.{◌≡◌, ◌+◌, ◌≤◌, ◌<◌, length};
ghost use Rattle.witness_sides.specs.Clauses.{move_entry, Appended};

use readings::{CLOSING, KIND_UNIT, OPENING, SYMBOL};
use triples::Move;

// The entry of a move's letter, if it has one.
fn move_entry(m: Move) -> Option<u32>
    ensures { result ≡ move_entry m }
{
    match m {
        Move::Opening(rule) => Some(OPENING * KIND_UNIT + rule as u32),
        Move::Closing(rule) => Some(CLOSING * KIND_UNIT + rule as u32),
        Move::Symbol(code) => Some(SYMBOL * KIND_UNIT + code as u32),
        Move::Still => None,
    }
}

// Puts the letter of a move, if any, after those that stand in a row; how many stand there then.
pub fn put_letter(row: &mut [u32], count: usize, m: Move) -> usize
    requires { count < length row.old }
    ensures upper_bound { result ≤ count + 1 }
    ensures appended { Appended m count row.old result row.new }
{
    let Some(entry) = move_entry(m) else {
        return count;
    };
    row[count] = entry;
    count + 1
}
