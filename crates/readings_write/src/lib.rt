// The writer of readings: two strings as the lines left= and right=. The entries of a string are its letters.
// The put functions write into the output from a place on, and return the place after what they wrote.

#![tactic(auto)]

ghost use Rattle.std.specs.Prelude.{[], ◌∷◌, ◌+◌, ◌≤◌, ◌<◌, length};
ghost use Rattle.grammar.specs.Limits.{limits};
ghost use Rattle.text.specs.Numbers.{decimal};
ghost use Rattle.text.specs.Spelled.{spelled};
ghost use Rattle.text_write.specs.Clauses.{Wrote};
ghost use Rattle.readings.specs.Readings.{word};
ghost use Rattle.readings.specs.Letters.{letter_from};
ghost use Rattle.readings_write.specs.Clauses.{Worded, Sayable, led_of, words_of, line_of, lines_of};

use names::{LINE_END, SPACE};
use readings::{CLOSES, CLOSING, KIND_UNIT, OPENING, OPENS};
use text_write::{put_byte, put_bytes, put_name, symbol};

// A number in decimal.
pub fn put_number(out: &mut [u8], at: usize, x: usize) -> usize
    requires { at + length (decimal x) ≤ length out.old }
    ensures { Wrote at (decimal x) out.old result out.new }
{
    let mut digits = [0u8; 20];
    let k = io::decimal(x as u64, &mut digits);
    put_bytes(out, at, &digits[..k])
}

// A parenthesis and a rule's number.
fn put_mark(out: &mut [u8], at: usize, paren: u8, number: u32) -> usize
    requires { at + length (paren ∷ decimal number) ≤ length out.old }
    ensures { Wrote at (paren ∷ decimal number) out.old result out.new }
{
    let j = put_byte(out, at, paren);
    put_number(out, j, number as usize)
}

// The word of a letter.
fn put_word(
    out: &mut [u8],
    at: usize,
    letter: u32,
    t: usize,
    text: &[u8],
    starts: &[u32],
    lengths: &[u32],
) -> usize
    requires { Worded t text.now starts.now lengths.now (letter ∷ [])
        × (at + length (word limits t (spelled text.now starts.now lengths.now) (letter_from letter)) ≤ length out.old) }
    ensures { Wrote at
        (word limits t (spelled text.now starts.now lengths.now) (letter_from letter))
        out.old result out.new }
{
    let kind = letter / KIND_UNIT;
    let number = letter % KIND_UNIT;
    if kind == OPENING {
        return put_mark(out, at, OPENS, number);
    }
    if kind == CLOSING {
        return put_mark(out, at, CLOSES, number);
    }
    let s = symbol(t, number as u16);
    put_name(out, at, text, starts, lengths, s)
}

// The words of letters, with a space before each.
fn put_led(
    out: &mut [u8],
    at: usize,
    letters: &[u32],
    t: usize,
    text: &[u8],
    starts: &[u32],
    lengths: &[u32],
) -> usize
    requires { Worded t text.now starts.now lengths.now letters.now
        × (at + length (led_of t (spelled text.now starts.now lengths.now) letters.now) ≤ length out.old) }
    ensures { Wrote at
        (led_of t (spelled text.now starts.now lengths.now) letters.now)
        out.old result out.new }
{
    let mut j = at;
    for letter in letters {
        j = put_byte(out, j, SPACE);
        j = put_word(out, j, *letter, t, text, starts, lengths);
    }
    j
}

// The words of a string, with a space between them.
fn put_words(
    out: &mut [u8],
    at: usize,
    letters: &[u32],
    t: usize,
    text: &[u8],
    starts: &[u32],
    lengths: &[u32],
) -> usize
    requires { Worded t text.now starts.now lengths.now letters.now
        × (at + length (words_of t (spelled text.now starts.now lengths.now) letters.now) ≤ length out.old) }
    ensures { Wrote at
        (words_of t (spelled text.now starts.now lengths.now) letters.now)
        out.old result out.new }
{
    match letters {
        [] => at,
        [first, others @ ..] => {
            let j = put_word(out, at, *first, t, text, starts, lengths);
            put_led(out, j, others, t, text, starts, lengths)
        }
    }
}

// A line: a key with its equals sign, and a string.
fn put_line(
    out: &mut [u8],
    at: usize,
    key: &[u8],
    letters: &[u32],
    t: usize,
    text: &[u8],
    starts: &[u32],
    lengths: &[u32],
) -> usize
    requires { Worded t text.now starts.now lengths.now letters.now
        × (at + length (line_of t (spelled text.now starts.now lengths.now) key.now letters.now) ≤ length out.old) }
    ensures { Wrote at
        (line_of t (spelled text.now starts.now lengths.now) key.now letters.now)
        out.old result out.new }
{
    let i = put_bytes(out, at, key);
    let j = put_words(out, i, letters, t, text, starts, lengths);
    put_byte(out, j, LINE_END)
}

// The two lines of two strings, from a place on; the place after them.
pub fn put_readings(
    out: &mut [u8],
    at: usize,
    left: &[u32],
    right: &[u32],
    t: usize,
    text: &[u8],
    starts: &[u32],
    lengths: &[u32],
) -> usize
    requires { Sayable t text.now starts.now lengths.now left.now right.now at out.old }
    ensures { Wrote at
        (lines_of t (spelled text.now starts.now lengths.now) left.now right.now)
        out.old result out.new }
{
    let j = put_line(out, at, b"left=", left, t, text, starts, lengths);
    put_line(out, j, b"right=", right, t, text, starts, lengths)
}
