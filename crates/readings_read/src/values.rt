// Values of lines: words with one space between, checked and counted, and written as letters.
ghost use Rattle.std.specs.Prelude.{◌≡◌, map, ◌≤◌, length};
ghost use Rattle.grammar.specs.Basics.{over};
ghost use Rattle.text.specs.Spelled.{spelled};
ghost use Rattle.readings.specs.Readings.{pieces_of};
ghost use Rattle.readings_read.specs.Words.{Symbols, worse, piece_fault, ValueTold, entry_at};

use super::WordFault;
use super::pieces::read_piece;
use names::SPACE;

// The fault of words with one piece more: a malformed one counts before an unknown one.
fn with_piece(fault: Option<WordFault>, piece: Result<u32, WordFault>) -> Option<WordFault>
    ensures { result ≡ worse fault (piece_fault piece) }
{
    match piece {
        Ok(_) => fault,
        Err(WordFault::Malformed) => Some(WordFault::Malformed),
        Err(WordFault::Unknown) => match fault {
            Some(WordFault::Malformed) => Some(WordFault::Malformed),
            _ => Some(WordFault::Unknown),
        },
    }
}

// Checks a value: how many words it has, or their fault. The empty value has none.
pub fn check_value(
    v: &[u8],
    text: &[u8],
    starts: &[u32],
    lengths: &[u32],
    links: &[u16],
    t: usize,
    count: usize,
) -> Result<usize, WordFault>
    requires { Symbols t count text.now starts.now lengths.now links.now }
    ensures { ValueTold t count (spelled text.now starts.now lengths.now) v.now result }
{
    let n = v.len();
    if n == 0 {
        return Ok(0);
    }
    let mut fault = None;
    let mut a = 0;
    let mut k = 0;
    loop {
        let e = names::find(v, a, SPACE);
        fault = with_piece(
            fault,
            read_piece(&v[a..e], text, starts, lengths, links, t, count),
        );
        k += 1;
        if n <= e {
            return match fault {
                None => Ok(k),
                Some(worst) => Err(worst),
            };
        }
        a = e + 1;
    }
}

// Writes the letters of a value to the front of a row.
pub fn put_value(
    v: &[u8],
    text: &[u8],
    starts: &[u32],
    lengths: &[u32],
    links: &[u16],
    t: usize,
    count: usize,
    row: &mut [u32],
)
    requires { (Symbols t count text.now starts.now lengths.now links.now) × (length (pieces_of v.now) ≤ length row.old) }
    ensures { row.new ≡ over (map (entry_at t count (spelled text.now starts.now lengths.now)) (pieces_of v.now)) row.old }
{
    let n = v.len();
    if n == 0 {
        return;
    }
    let mut a = 0;
    let mut j = 0;
    loop {
        let e = names::find(v, a, SPACE);
        row[j] = read_piece(&v[a..e], text, starts, lengths, links, t, count).unwrap_or(0);
        if n <= e {
            return;
        }
        a = e + 1;
        j += 1;
    }
}
