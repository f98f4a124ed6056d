// Judges the grammar text on standard input: writes Q, the verdict, and the size or two readings to standard output; or the refusal.
//
// One byte more than the program takes is read, so that a longer text is known as such. A failed read is not taken for the end of
// the text: nothing is then written to standard output, and a line to standard error says so. The same line tells of a failed write.
#![tactic(auto)]

ghost use Rattle.std.specs.Prelude.{◌≡◌, ◌≤◌, length, IfSome, IfOk, IfErr, OnOk, IsErrOf};
ghost use Rattle.std.specs.Io.KnownBytes.{Appends, Keeps};
ghost use Rattle.report.specs.Report.{report_of};
ghost use Rattle.ambig.specs.Input.{ReadsText};
ghost use Rattle.ambig.specs.Output.{AppendsFront};

use report::{PROGRAM_TEXT, REPORT_SIZE, Reported};
use std::io::{Read, Write};

const COMPLAINT: &[u8] = b"ambig: standard input or output failed\n";

// A read of the text failed, or a write of what is printed for it.
#[derive(Clone, Copy)]
pub enum Failure {
    Read,
    Write,
}

// Writes all of the bytes, or stops at the first write that takes nothing or fails.
fn write_bytes<W: Write>(output: &mut W, bytes: &[u8]) -> Result<(), Failure>
    ensures all { OnOk result (Appends (W.contents output.old) (W.contents output.new) bytes.now) }
    ensures front { AppendsFront (W.contents output.old) (W.contents output.new) bytes.now }
    ensures failed { IfErr result (λ e. e ≡ Failure.Write) }
{
    let n = bytes.len();
    let mut at = 0;
    while at < n {
        let Ok(k) = output.write(&bytes[at..]) else {
            return Err(Failure::Write);
        };
        if k == 0 {
            return Err(Failure::Write);
        }
        at += k;
    }
    Ok(())
}

// Where this write fails too, nothing more can be told.
fn complain<W: Write>(errors: &mut W)
    ensures { AppendsFront (W.contents errors.old) (W.contents errors.new) COMPLAINT.now }
{
    let _ = write_bytes(errors, COMPLAINT);
}

// Reads until the text is full or the input ends.
fn read_input<R: Read>(input: &mut R, text: &mut [u8]) -> Result<usize, Failure>
    ensures within { IfOk result (λ n. n ≤ length text.new) }
    ensures read { ReadsText (R.remaining input.old) (R.remaining input.new) result text.new }
{
    let n = text.len();
    let mut at = 0;
    while at < n {
        let Ok(k) = input.read(&mut text[at..]) else {
            return Err(Failure::Read);
        };
        if k == 0 {
            return Ok(at);
        }
        at += k;
    }
    Ok(at)
}

// Writes what is printed for a text. The output lent is never too short.
fn print_report<W: Write>(output: &mut W, text: &[u8]) -> Result<(), Failure>
    ensures all { OnOk result (Appends (W.contents output.old) (W.contents output.new) (report_of text.now)) }
    ensures front { AppendsFront (W.contents output.old) (W.contents output.new) (report_of text.now) }
    ensures failed { IfErr result (λ e. e ≡ Failure.Write) }
{
    let mut out = [0u8; REPORT_SIZE];
    let reported = report::report(text, &mut out);
    let Reported::Written(n) = reported else {
        unreachable!()
    };
    write_bytes(output, &out[..n])
}

// Reads the text, and writes what is printed for it. Where it is known what the input has left, however much that is, and what the
// output holds: all of what is printed for it is appended, or a front where a write fails, or nothing where a read fails.
pub fn judge_input<R: Read, W: Write>(input: &mut R, output: &mut W) -> Result<(), Failure>
    ensures all { OnOk result (IfSome (R.remaining input.old)
        (λ xs. Appends (W.contents output.old) (W.contents output.new) (report_of xs))) }
    ensures front { IfSome (R.remaining input.old)
        (λ xs. AppendsFront (W.contents output.old) (W.contents output.new) (report_of xs)) }
    ensures unread { IsErrOf result Failure.Read → Keeps (W.contents output.old) (W.contents output.new) }
{
    let mut text = [0u8; PROGRAM_TEXT + 1];
    let n = read_input(input, &mut text)?;
    print_report(output, &text[..n])
}

fn main(rt: HostRuntime) {
    if judge_input(&mut rt.stdin(), &mut rt.stdout()).is_err() {
        complain(&mut rt.stderr());
    }
}

#[cfg(test)]
mod tests {
    use super::*;
    use std::io;
    use std::io::ErrorKind;

    const TEXT: &[u8] = b"terminals=a\nnonterminals=S\nrule=S: a\n";

    const REPORT: &[u8] = b"states=6\nverdict=unambiguous\nreached=11\n";

    // Each read and each write fails.
    #[derive(Drop)]
    struct Broken;

    impl Read for Broken {
        fn read(&mut self, _buf: &mut [u8]) -> io::Result<usize> {
            Err(io::Error::from(ErrorKind::Other))
        }
    }

    impl Write for Broken {
        fn write(&mut self, _buf: &[u8]) -> io::Result<usize> {
            Err(io::Error::from(ErrorKind::Other))
        }

        fn flush(&mut self) -> io::Result<()> {
            Ok(())
        }
    }

    #[test]
    fn text_in_two_pieces(rt: HostRuntime) {
        let mut input = TEXT[..20].chain(&TEXT[20..]);
        let mut output = Vec::new(rt.alloc());
        assert!(rt; judge_input(&mut input, &mut output).is_ok());
        assert_eq!(rt; output.as_slice(), REPORT);
    }

    // The first piece is a whole grammar.
    #[test]
    fn read_that_fails(rt: HostRuntime) {
        let mut input = TEXT.chain(Broken);
        let mut output = Vec::new(rt.alloc());
        let read = judge_input(&mut input, &mut output);
        assert!(rt; matches!(read, Err(Failure::Read)));
        assert!(rt; output.is_empty());
    }

    #[test]
    fn write_that_fails(rt: HostRuntime) {
        let mut room = [0u8; 10];
        let mut output = &mut room[..];
        let short = judge_input(&mut &TEXT[..], &mut output);
        assert!(rt; matches!(short, Err(Failure::Write)));
        assert_eq!(rt; &room[..], &REPORT[..10]);
        let broken = judge_input(&mut &TEXT[..], &mut Broken);
        assert!(rt; matches!(broken, Err(Failure::Write)));
    }

    #[test]
    fn complaint_is_a_line(rt: HostRuntime) {
        let mut errors = Vec::new(rt.alloc());
        complain(&mut errors);
        let line: &[u8] = b"ambig: standard input or output failed\n";
        assert_eq!(rt; errors.as_slice(), line);
    }
}
