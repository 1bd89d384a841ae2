// The line under way, and the answer to it once it has ended.
ghost use Rattle.std.specs.Prelude.{◌≤◌};

use crate::answers::{Failure, Output};
use crate::cases;
use crate::numbers::Numbers;
use std::io;
use std::io::Write;

// The most bytes that a line has.
const LONGEST: usize = 65536;

// One byte more: a line that fills it is too long.
const ROOM: usize = 65537;

// The most numbers of a line, which are fewer.
const NUMBERS: usize = 32768;

// What has come of a line, and room for numbers that a case keeps: in places of its own and in no
// `Vec`, so that no memory has to be had.
#[derive(Drop)]
pub(crate) struct Line {
    text: [u8; ROOM],
    length: usize,
    numbers: [u32; NUMBERS],
    ghost within: { length ≤ 65537 },
}

impl Line {
    pub(crate) fn new() -> Line {
        Line {
            text: [0; ROOM],
            length: 0,
            numbers: [0; NUMBERS],
        }
    }

    // Takes what comes next, and answers each line that ends in it.
    pub(crate) fn take(&mut self, text: &[u8], out: &mut Output) -> io::Result<()> {
        for byte in text {
            if *byte == b'\n' {
                self.end(out)?;
            } else if self.length < ROOM {
                self.text[self.length] = *byte;
                self.length += 1;
            }
        }
        Ok(())
    }

    // A last line that no newline ended is answered too.
    pub(crate) fn end_input(&mut self, out: &mut Output) -> io::Result<()> {
        if self.length == 0 {
            return Ok(());
        }
        self.end(out)
    }

    // Answers the line, which has ended, and begins the next.
    fn end(&mut self, out: &mut Output) -> io::Result<()> {
        answer(&self.text[..self.length], &mut self.numbers, out)?;
        self.length = 0;
        Ok(())
    }
}

// Answers a line by a line, and an empty one by an empty one.
fn answer(line: &[u8], room: &mut [u32], out: &mut Output) -> io::Result<()> {
    if !line.is_empty() {
        match answer_case(line, room, out) {
            Ok(()) => (),
            Err(Failure::BadCase) => write!(out, "bad case")?,
            Err(Failure::Unwritten(error)) => return Err(error),
        }
    }
    writeln!(out)
}

// Answers the case that a line is, if it is one. Nothing is written where it is none. Out of line:
// with it in line the machines' loops stood elsewhere in memory, and a multicycle step took up to
// 7 % longer.
#[inline(never)]
fn answer_case(line: &[u8], room: &mut [u32], out: &mut Output) -> Result<(), Failure> {
    if line.len() > LONGEST {
        return Err(Failure::BadCase);
    }
    let mut numbers = Numbers::of(line);
    let word = numbers.take_word()?;
    cases::answer(word, numbers, room, out)
}
