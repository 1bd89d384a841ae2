// What the assembler answers.
ghost use Rattle.std.specs.Prelude.{◌≡◌};
ghost use Rattle.std.specs.Prelude.{Err};
ghost use Rattle.assembler.specs.Assembling.{number_in, line_in};

use placing::{Fault, fault_number};
use terms::WordIndex;

// A line of a text, counted from 1.
#[derive(Clone, Copy, PartialEq, Eq)]
pub struct LineNumber(pub u32);

// Why no word was written.
#[derive(Clone, Copy, PartialEq, Eq)]
pub enum AssemblyError {
    // 1: given address not a multiple of 4
    Misaligned,
    // 19: output shorter than the words to write
    NoRoom,
    // 20 to 23: the first bad line
    Line { number: LineNumber, fault: Fault },
    // 24: too many lines
    TooManyLines,
}

impl AssemblyError {
    // Its number.
    pub fn number(self) -> u32
        ensures { result ≡ number_in (Err self) }
    {
        match self {
            AssemblyError::Misaligned => 1,
            AssemblyError::NoRoom => 19,
            AssemblyError::Line { fault, .. } => fault_number(fault),
            AssemblyError::TooManyLines => 24,
        }
    }

    // The line that it names; 0 where it names none, which is what `refused_line` promises.
    fn line(self) -> LineNumber
        ensures { result.0 ≡ line_in (Err self) }
    {
        match self {
            AssemblyError::Line { number, .. } => number,
            _ => LineNumber(0),
        }
    }
}

// The number of a refusal; 0 where words were written, which its clause says.
pub fn refusal_number(answer: Result<WordIndex, AssemblyError>) -> u32
    ensures { result ≡ number_in answer }
{
    match answer {
        Ok(_) => 0,
        Err(error) => error.number(),
    }
}

// The line that a refusal names; 0 where it names none, which its clause says.
pub fn refused_line(answer: Result<WordIndex, AssemblyError>) -> LineNumber
    ensures { result.0 ≡ line_in answer }
{
    match answer {
        Ok(_) => LineNumber(0),
        Err(error) => error.line(),
    }
}
