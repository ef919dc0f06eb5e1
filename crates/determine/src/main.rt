// The program: standard input to the sheet, or to the `E` line, on standard output.
#![tactic(auto)]

ghost use Rattle.std.specs.Prelude.{◌≡◌, length, IfOk};
ghost use Rattle.std.specs.Io.{ReadsAtMost, WritesAtMost};
ghost use Rattle.std.specs.Io.KnownBytes.{IsAtEnd, ReadConsumes, WriteAppends};
ghost use Rattle.determine.specs.Transfer.{moved_of, Over, InputOf, OutputOf, ReadsAll, WritesAll};

use determination::determine;
use std::io::{ErrorKind, IsTerminal, Read, Write};
use std::{fmt, io};

// One byte more than the longest input, so that a longer one shows.
const INPUT_ROOM: usize = determination::INPUT_MOST + 1;

// What it tells on standard error where a person would have to type the survey.
const AWAITED: &str =
    "determine: a survey is awaited on standard input; for a file: determine < FILE";

// A failure that the program tells on standard error.
#[derive(Drop)]
enum Failure {
    Input,
    Output,
}

impl fmt::Display for Failure {
    fn fmt<W: fmt::Write>(&self, f: &mut fmt::Formatter<W>) -> fmt::Result {
        match self {
            Failure::Input => write!(f, "determine: standard input cannot be read"),
            Failure::Output => write!(f, "determine: standard output cannot be written"),
        }
    }
}

// How many bytes a read or a write moved; `None` where there is no more to move.
fn moved(returned: io::Result<usize>) -> io::Result<Option<usize>>
    ensures { result ≡ moved_of returned }
{
    let n = returned?;
    Ok((n > 0).then_some(n))
}

// A reader or a writer, and what its last call returned; `Ok(1)` before the first.
#[derive(Drop)]
struct Transfer<S> {
    stream: S,
    last: io::Result<usize>,
}

impl<R: Read> Transfer<R> {
    fn read(&mut self, buffer: &mut [u8]) -> io::Result<usize>
        ensures last { result ≡ self.new.last }
        ensures bound { ReadsAtMost result buffer.new }
        ensures bytes { ReadConsumes (R.remaining self.old.stream) (R.remaining self.new.stream) result buffer.new }
    {
        self.last = self.stream.read(buffer);
        self.last
    }
}

impl<W: Write> Transfer<W> {
    fn write(&mut self, bytes: &[u8]) -> io::Result<usize>
        ensures last { result ≡ self.new.last }
        ensures bound { WritesAtMost result bytes.now }
        ensures bytes { WriteAppends (W.contents self.old.stream) (W.contents self.new.stream) result bytes.now }
    {
        self.last = self.stream.write(bytes);
        self.last
    }
}

// Reads the input to its end or until the buffer is full; how many bytes stand in it. A failed read leaves no input.
fn read_all<R: Read>(input: &mut Transfer<R>, buffer: &mut [u8]) -> io::Result<usize>
    ensures all { ReadsAll (R.remaining input.old.stream) (R.remaining input.new.stream) result buffer.new }
    ensures over { IfOk result (λ done. Over (moved_of input.new.last) done (length buffer.old)) }
    ensures end { moved_of input.new.last ≡ Ok None → IsAtEnd (R.remaining input.new.stream) }
    ensures input { InputOf (moved_of input.new.last) result }
{
    input.last = Ok(1);
    let mut done = 0;
    while done < buffer.len() {
        match moved(input.read(&mut buffer[done..]))? {
            Some(n) => done += n,
            None => return Ok(done),
        }
    }
    Ok(done)
}

// Writes all bytes, or as many as go before a write fails or takes none. The library's `write_all` does not tell which bytes stand there after a failure.
// One loop for both, over a closure that moves a part, is no plainer: its contract would have to tell what the closure borrows and leaves.
fn write_all<W: Write>(output: &mut Transfer<W>, bytes: &[u8]) -> io::Result<()>
    ensures all { WritesAll (W.contents output.old.stream) (W.contents output.new.stream) result bytes.now }
    ensures output { OutputOf (moved_of output.new.last) result }
{
    output.last = Ok(1);
    let mut done = 0;
    while done < bytes.len() {
        match moved(output.write(&bytes[done..]))? {
            Some(n) => done += n,
            None => return Err(ErrorKind::WriteZero.into()),
        }
    }
    Ok(())
}

// Where a person types at a terminal, standard error says what is waited for.
fn tell_what_is_awaited(rt: &HostRuntime) {
    if rt.stdin().is_terminal() {
        let _ = eprintln!(rt; "{AWAITED}");
    }
}

// What an input comes to, on standard output. The array stands first, as the buffer does in `run`: one that stands later is zeroed twice.
fn print(rt: &HostRuntime, input: &[u8]) -> Result<(), Failure> {
    let mut sheet = [0; determination::SHEET_MOST];
    let length = determine(input, &mut sheet);
    let mut output = Transfer {
        stream: rt.stdout(),
        last: Ok(1),
    };
    write_all(&mut output, &sheet[..length]).map_err(|_| Failure::Output)
}

// Where standard input cannot be read to its end, nothing is judged: standard output stays empty.
fn run(rt: &HostRuntime) -> Result<(), Failure> {
    let mut buffer = [0; INPUT_ROOM];
    tell_what_is_awaited(rt);
    let mut input = Transfer {
        stream: rt.stdin(),
        last: Ok(1),
    };
    let read = read_all(&mut input, &mut buffer).map_err(|_| Failure::Input)?;
    print(rt, &buffer[..read])
}

// A failure is told on standard error; the exit status is 0 all the same.
fn main(rt: HostRuntime) {
    if let Err(failure) = run(&rt) {
        let _ = eprintln!(rt; "{failure}");
    }
}
