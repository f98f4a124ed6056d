// The blocks of a row: where the rules of one end, and entries copied within the row.
ghost use Rattle.std.specs.Prelude.{◌≡◌, ◌+◌, ◌≤◌, length, drop, MatchOption};
ghost use Rattle.std.proofs.Math.Option.{none, some};
ghost use Rattle.std.proofs.Math.Seq.{paste};
ghost use Rattle.drafts.specs.Row.{block_at, block_size, block_of, end_of};
ghost use Rattle.drafts.specs.Edits.{Apart};

use grammar::{MAX_RULES, MAX_STATES};

// One more than the longest table, and nine of them after t and n; specs/Row.antt has the same numbers.
pub const BLOCK: usize = 1 + MAX_RULES + MAX_STATES;

pub const DRAFT_ROOM: usize = 2 + 9 * BLOCK;

// Where the rules of a block end: the walk leaves it at the first rule that is not whole.
fn block_end(block: &[u16]) -> Option<usize>
    ensures { MatchOption result (end_of block.now ≡ none) (λ end. end_of block.now ≡ some end) }
{
    if block.is_empty() {
        return None;
    }
    let cell = usize::from(block[0]);
    if cell < 1 {
        return None;
    }
    let mut at = 1;
    for _ in 0..cell - 1 {
        if block.len() - at < 2 {
            return None;
        }
        let start = at + 2;
        let k = usize::from(block[at + 1]);
        if block.len() - start < k {
            return None;
        }
        at = start + k;
    }
    Some(at)
}

pub fn held(row: &[u16], j: usize) -> Option<usize>
    requires { block_at j + block_size ≤ length row.now }
    ensures { MatchOption result (end_of (block_of row.now j) ≡ none) (λ end. end_of (block_of row.now j) ≡ some end) }
{
    let from = 2 + j * BLOCK;
    let to = from + BLOCK;
    block_end(&row[from..to])
}

// Copies n entries from a place to another, the lowest first.
pub fn copy_within(row: &mut [u16], from: usize, to: usize, n: usize)
    requires { Apart from to n (length row.old) }
    ensures { row.new ≡ paste row.old to (drop from row.old) n }
{
    for i in 0..n {
        row[to + i] = row[from + i];
    }
}
