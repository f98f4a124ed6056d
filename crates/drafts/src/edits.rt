// What an edit writes into the row.
ghost use Rattle.std.specs.Prelude.{◌≡◌, ◌∷◌, ◌+◌, ◌≤◌, length};
ghost use Rattle.std.proofs.Math.Option.{some};
ghost use Rattle.std.proofs.Math.Seq.{paste};
ghost use Rattle.drafts.specs.Row.{table_room, draft_room, block_of, walk, splice, emptied};
ghost use Rattle.drafts.specs.Draft.{marks_count};
ghost use Rattle.drafts.specs.Edits.{Reaches, Removable, removed};

use super::MARKS;
use super::blocks::{BLOCK, copy_within};

// Where the rule after so many rules begins.
fn place_in(block: &[u16], m: usize) -> usize
    requires { Reaches block.now m }
    ensures { walk m block.now 1 ≡ some result }
{
    let mut at = 1;
    for _ in 0..m {
        let k = usize::from(block[at + 1]);
        at = at + 2 + k;
    }
    at
}

pub fn rule_place(row: &[u16], m: usize) -> usize
    requires { (draft_room ≤ length row.now) × Reaches (block_of row.now 0) m }
    ensures { walk m (block_of row.now 0) 1 ≡ some result }
{
    let to = 2 + BLOCK;
    place_in(&row[2..to], m)
}

// The rule at a place is taken out: what follows it in the table moves down.
pub fn remove(row: &mut [u16], from: usize, end: usize)
    requires { Removable row.old from end }
    ensures { row.new ≡ removed row.old from end }
{
    let next = from + 2 + usize::from(row[from + 1]);
    copy_within(row, next, from, 2 + end - next);
    row[2] = row[2] - 1;
}

// The first m of some entries are copied to a place in the row.
pub fn put_entries(row: &mut [u16], at: usize, entries: &[u16], m: usize)
    requires { (at + m ≤ length row.old) × (m ≤ length entries.now) }
    ensures { row.new ≡ paste row.old at entries.now m }
{
    copying::copy(&mut row[at..at + m], &entries[..m]);
}

fn empty_marks(row: &mut [u16])
    requires { draft_room ≤ length row.old }
    ensures { row.new ≡ emptied marks_count row.old }
{
    for k in 1..=MARKS {
        row[2 + k * BLOCK] = 0;
    }
}

pub fn begin(row: &mut [u16], t: u16, n: u16, cell: u16, table: &[u16])
    requires { (draft_room ≤ length row.old) × (length table.now ≤ table_room) }
    ensures { row.new ≡ emptied marks_count (splice row.old 0 (t ∷ n ∷ cell ∷ table.now)) }
{
    let m = table.len();
    put_entries(row, 3, table, m);
    row[0] = t;
    row[1] = n;
    row[2] = cell;
    empty_marks(row);
}
