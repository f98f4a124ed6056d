// Lines. The put functions write into the output from a place on, and return the place after what they wrote.
ghost use Rattle.std.specs.Prelude.{◌+◌, ◌≤◌, length};
ghost use Rattle.text_write.specs.Clauses.{Wrote};
ghost use Rattle.text.specs.Numbers.{decimal};
ghost use Rattle.report.specs.Report.{line};
ghost use Rattle.report.specs.Clauses.{unambiguous_lines, potential_lines, refused_lines};

use grammar::Cause;
use readings_write::put_number;
use text_write::put_bytes;

// A key, a value and byte 10.
fn put_line(out: &mut [u8], at: usize, key: &[u8], value: &[u8]) -> usize
    requires { at + length (line key.now value.now) ≤ length out.old }
    ensures { Wrote at (line key.now value.now) out.old result out.new }
{
    let a = put_bytes(out, at, key);
    let b = put_bytes(out, a, value);
    put_bytes(out, b, b"\n")
}

// The same with a number in decimal.
fn put_count(out: &mut [u8], at: usize, key: &[u8], x: usize) -> usize
    requires { at + length (line key.now (decimal x)) ≤ length out.old }
    ensures { Wrote at (line key.now (decimal x)) out.old result out.new }
{
    let a = put_bytes(out, at, key);
    let b = put_number(out, a, x);
    put_bytes(out, b, b"\n")
}

// Q, verdict, size.
pub fn put_unambiguous(out: &mut [u8], states: usize, reached: usize) -> usize
    requires { length (unambiguous_lines states reached) ≤ length out.old }
    ensures { Wrote 0 (unambiguous_lines states reached) out.old result out.new }
{
    let a = put_count(out, 0, b"states=", states);
    let b = put_line(out, a, b"verdict=", b"unambiguous");
    put_count(out, b, b"reached=", reached)
}

// Q, verdict.
pub fn put_potential(out: &mut [u8], states: usize) -> usize
    requires { length (potential_lines states) ≤ length out.old }
    ensures { Wrote 0 (potential_lines states) out.old result out.new }
{
    let a = put_count(out, 0, b"states=", states);
    put_line(out, a, b"verdict=", b"potential")
}

// A refusal's number and position.
pub fn put_refused(out: &mut [u8], cause: Cause, at: usize) -> usize
    requires { length (refused_lines cause at) ≤ length out.old }
    ensures { Wrote 0 (refused_lines cause at) out.old result out.new }
{
    let a = put_count(out, 0, b"refused=", u8::from(cause) as usize);
    put_count(out, a, b"at=", at)
}
