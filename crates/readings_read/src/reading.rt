// The two lines: both are checked before a row is written.
ghost use Rattle.text.specs.Spelled.{spelled};
ghost use Rattle.readings_read.specs.Words.{Symbols};
ghost use Rattle.readings_read.specs.Lines.{StartTold, LineTold, FirstSaid, LinesTold, BackTold};

use super::values::{check_value, put_value};
use super::{Line, Lines, WordFault};
use grammar::Cause;
use names::{EQUALS, LINE_END};
use readings::ReadBack;

// Where the value of a line with this key starts: after the key and the equals sign.
fn value_start(key: &[u8], line: &[u8]) -> Option<usize>
    ensures { StartTold key.now line.now result }
{
    let m = key.len();
    if line.len() <= m {
        return None;
    }
    if !line.starts_with(key) {
        return None;
    }
    if line[m] != EQUALS {
        return None;
    }
    Some(m + 1)
}

// Line number `at`, which has this key: 16, 17.
fn check_line(
    at: usize,
    key: &[u8],
    line: &[u8],
    text: &[u8],
    starts: &[u32],
    lengths: &[u32],
    links: &[u16],
    t: usize,
    count: usize,
) -> Line
    requires { Symbols t count text.now starts.now lengths.now links.now }
    ensures { LineTold t count (spelled text.now starts.now lengths.now) at key.now line.now result }
{
    let Some(start) = value_start(key, line) else {
        return Line::Fault(Cause::Malformed, at);
    };
    match check_value(&line[start..], text, starts, lengths, links, t, count) {
        Err(WordFault::Malformed) => Line::Fault(Cause::Malformed, at),
        Err(WordFault::Unknown) => Line::Fault(Cause::NameUnknown, at),
        Ok(count) => Line::Said { start, count },
    }
}

// The second line, after the first, whose value stands from first to end: nothing stands past it.
fn second_line(
    lines: &[u8],
    first: usize,
    end: usize,
    left: usize,
    text: &[u8],
    starts: &[u32],
    lengths: &[u32],
    links: &[u16],
    t: usize,
    count: usize,
) -> Lines
    requires { (Symbols t count text.now starts.now lengths.now links.now) × (FirstSaid t count (spelled text.now starts.now lengths.now) lines.now first end left) }
    ensures { LinesTold t count (spelled text.now starts.now lengths.now) lines.now result }
{
    let a = end + 1;
    let e = names::find(lines, a, LINE_END);
    if lines.len() <= e {
        return Lines::Fault(Cause::Malformed, 2);
    }
    if e + 1 < lines.len() {
        return Lines::Fault(Cause::Malformed, 2);
    }
    match check_line(
        2,
        b"right",
        &lines[a..e],
        text,
        starts,
        lengths,
        links,
        t,
        count,
    ) {
        Line::Fault(cause, at) => Lines::Fault(cause, at),
        Line::Said { start, count } => Lines::Said {
            first,
            first_end: end,
            left,
            second: a + start,
            second_end: e,
            right: count,
        },
    }
}

// Both lines, the first before the second.
fn check_lines(
    lines: &[u8],
    text: &[u8],
    starts: &[u32],
    lengths: &[u32],
    links: &[u16],
    t: usize,
    count: usize,
) -> Lines
    requires { Symbols t count text.now starts.now lengths.now links.now }
    ensures { LinesTold t count (spelled text.now starts.now lengths.now) lines.now result }
{
    let e = names::find(lines, 0, LINE_END);
    if lines.len() <= e {
        return Lines::Fault(Cause::Malformed, 1);
    }
    match check_line(
        1,
        b"left",
        &lines[0..e],
        text,
        starts,
        lengths,
        links,
        t,
        count,
    ) {
        Line::Fault(cause, at) => Lines::Fault(cause, at),
        Line::Said { start, count: left } => second_line(
            lines, start, e, left, text, starts, lengths, links, t, count,
        ),
    }
}

// The two lines in a grammar: their faults, then 14; then both strings are written.
pub fn read_lines(
    text: &[u8],
    starts: &[u32],
    lengths: &[u32],
    links: &[u16],
    t: usize,
    count: usize,
    lines: &[u8],
    left: &mut [u32],
    right: &mut [u32],
) -> ReadBack
    requires { Symbols t count text.now starts.now lengths.now links.now }
    ensures { BackTold t count (spelled text.now starts.now lengths.now) lines.now left.old right.old result left.new right.new }
{
    match check_lines(lines, text, starts, lengths, links, t, count) {
        Lines::Fault(cause, at) => ReadBack::Refused(cause, at),
        Lines::Said {
            first,
            first_end,
            left: m,
            second,
            second_end,
            right: n,
        } => {
            if left.len() < m {
                return ReadBack::Refused(Cause::BufferTooShort, 0);
            }
            if right.len() < n {
                return ReadBack::Refused(Cause::BufferTooShort, 0);
            }
            put_value(
                &lines[first..first_end],
                text,
                starts,
                lengths,
                links,
                t,
                count,
                left,
            );
            put_value(
                &lines[second..second_end],
                text,
                starts,
                lengths,
                links,
                t,
                count,
                right,
            );
            ReadBack::Read { left: m, right: n }
        }
    }
}
