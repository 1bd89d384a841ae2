// The one line that is printed.
use crate::trial::Line;
use std::{fmt, io};

// Cycles, instructions, refusal and PC, in decimal.
impl fmt::Display for Line {
    fn fmt<W: fmt::Write>(&self, f: &mut fmt::Formatter<W>) -> fmt::Result {
        let cycles = self.cycles.0;
        let instructions = self.instructions.0;
        let refusal = self.refusal;
        let pc = self.pc.0;
        write!(f, "{cycles} {instructions} {refusal} {pc}")
    }
}

// The line, or that the input was bad.
pub(crate) fn show(rt: &impl Print, line: Option<Line>) -> io::Result<()> {
    match line {
        Some(line) => println!(rt; "{line}"),
        None => println!(rt; "bad input"),
    }
}
