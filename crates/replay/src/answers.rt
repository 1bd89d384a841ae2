// Answers: the numbers of one, written one after another. They wait in the output's buffer, so an
// answer may have any length.
ghost use Rattle.std.specs.Prelude.{◌≤◌};

use crate::numbers::BadCase;
use std::io;
use std::io::Write;
use std::rt::Stdout;
use terms::{Outcome, Refusal};

// How many bytes wait at most.
const ROOM: usize = 65536;

// Standard output, and what waits to be written to it: in places of its own and in no `BufWriter`,
// so that no memory has to be had.
#[derive(Drop)]
pub(crate) struct Output {
    to: Stdout,
    bytes: [u8; ROOM],
    held: usize,
    ghost within: { held ≤ 65536 },
}

impl Output {
    pub(crate) fn new(to: Stdout) -> Output {
        Output {
            to,
            bytes: [0; ROOM],
            held: 0,
        }
    }
}

impl Write for Output {
    fn write(&mut self, text: &[u8]) -> io::Result<usize> {
        if self.held == ROOM {
            self.flush()?;
        }
        let n = text.len().min(ROOM - self.held);
        let end = self.held + n;
        self.bytes[self.held..end].copy_from_slice(&text[..n]);
        self.held = end;
        Ok(n)
    }

    // What could not be written waits no more.
    fn flush(&mut self) -> io::Result<()> {
        let held = self.held;
        self.held = 0;
        self.to.write_all(&self.bytes[..held])
    }
}

// Why a line is not answered by numbers: it is no case, or they could not be written. These are two
// errors, each of which comes by `?`, and the run goes on after the first.
#[derive(Debug, Drop)]
pub(crate) enum Failure {
    BadCase,
    Unwritten(io::Error),
}

impl From<BadCase> for Failure {
    fn from(_bad: BadCase) -> Failure {
        Failure::BadCase
    }
}

impl From<io::Error> for Failure {
    fn from(error: io::Error) -> Failure {
        Failure::Unwritten(error)
    }
}

// Writes a number that is not the first of its answer: a blank stands before it.
pub(crate) fn put(out: &mut Output, number: u32) -> io::Result<()> {
    write!(out, " {number:x}")
}

// Writes further numbers.
pub(crate) fn put_all<T: Copy + Into<u32>>(out: &mut Output, numbers: &[T]) -> io::Result<()> {
    for number in numbers {
        put(out, (*number).into())?;
    }
    Ok(())
}

// What an entry answers, which can be told in numbers.
pub(crate) trait Tell: Drop {
    fn tell(self, out: &mut Output) -> io::Result<()>;
}

// Nothing stands beside the reply.
impl Tell for () {
    fn tell(self, _out: &mut Output) -> io::Result<()> {
        Ok(())
    }
}

impl Tell for u32 {
    fn tell(self, out: &mut Output) -> io::Result<()> {
        put(out, self)
    }
}

// The number of a refusal, with its values where it has some.
impl Tell for Refusal {
    fn tell(self, out: &mut Output) -> io::Result<()> {
        let number = self.number();
        write!(out, "{number:x}")?;
        match self {
            Refusal::Misaligned { address, kind } | Refusal::Outside { address, kind } => {
                put_all(out, &[address.0, kind.number()])
            }
            Refusal::WalkRule {
                opcode,
                state,
                rule,
            } => put_all(out, &[opcode, state, rule]),
            _ => Ok(()),
        }
    }
}

// 0 where nothing is refused, with what was answered; or the refusal.
impl<T: Tell> Tell for Result<T, Refusal> {
    fn tell(self, out: &mut Output) -> io::Result<()> {
        match self {
            Ok(answer) => {
                write!(out, "0")?;
                answer.tell(out)
            }
            Err(refusal) => refusal.tell(out),
        }
    }
}

// How a run ended: 0 where its budget was spent, or the refusal.
impl Tell for Outcome {
    fn tell(self, out: &mut Output) -> io::Result<()> {
        match self {
            Outcome::Spent => Ok(()).tell(out),
            Outcome::Stopped(refusal) => refusal.tell(out),
        }
    }
}
