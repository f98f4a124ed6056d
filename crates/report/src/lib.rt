// What the program prints for a text: the reader, then the search, then their answer as lines.

#![tactic(auto)]

mod put;
mod telling;

ghost use Rattle.report.specs.Report.{Reports};

use grammar::Cause;

// The most bytes of text and the most states that the program takes; the length of an output that is never too short.
pub const PROGRAM_TEXT: usize = 4096;

pub const PROGRAM_STATES: usize = 48;

pub const REPORT_SIZE: usize = 2 * (16 * 2 * PROGRAM_STATES * PROGRAM_STATES) + 64;

// How many bytes were written; or the refusal with its cause and its position.
#[derive(Drop)]
pub enum Reported {
    Written(usize),
    Refused(Cause, usize),
}

// Writes what the program prints for a text to the front of the output, if there is room.
pub fn report(text: &[u8], out: &mut [u8]) -> Reported
    ensures { Reports text.now out.old result out.new }
{
    let mut lines = [0u8; REPORT_SIZE];
    let end = telling::put_report(&mut lines, text);
    if out.len() < end {
        return Reported::Refused(Cause::BufferTooShort, 0);
    }
    text_write::put_bytes(out, 0, &lines[..end]);
    Reported::Written(end)
}
