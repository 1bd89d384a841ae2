// replay: one case a line in, one answer a line out. A case names an entry of the library and gives
// it its numbers; the answer is what came back, in numbers too.
#![tactic(auto)]

mod answers;
mod cases;
mod image;
mod kinds;
mod lines;
mod machines;
mod numbers;
mod stores;

use crate::answers::Output;
use crate::lines::Line;
use std::io;
use std::io::{Read, Write};

// Answers each line of the input, to its end or until an answer cannot be written. What waits is
// written before more is read, so that whoever asked has it. A read that fails ends the input, for
// nothing more can come. A proved loop has to end, and nothing says that the input does: so the
// reads are counted up to a number that no run reaches.
fn answer_all<R: Read>(input: &mut R, line: &mut Line, out: &mut Output) -> io::Result<()> {
    let mut room = [0u8; 65536];
    for _ in 0..u64::MAX {
        let n = input.read(&mut room).unwrap_or(0);
        if n == 0 {
            break;
        }
        line.take(&room[..n], out)?;
        out.flush()?;
    }
    line.end_input(out)?;
    out.flush()
}

// A write that fails ends the run, and nothing more is written.
fn main(rt: HostRuntime) {
    let mut line = Line::new();
    let mut out = Output::new(rt.stdout());
    let _ = answer_all(&mut rt.stdin(), &mut line, &mut out);
}
