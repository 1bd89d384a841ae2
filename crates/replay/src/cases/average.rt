// `average C I`: the average of C cycles over I instructions.
use crate::answers::{Failure, Output, Tell};
use crate::numbers::Numbers;
use std::io;
use std::io::Write;
use terms::{Cycles, Instructions, average};

// A double's 64 bits. A NaN, which no average is, has many patterns, and this is one of them.
fn bits(x: f64) -> u64 {
    if x.is_nan() {
        return 0x7ff8_0000_0000_0000;
    }
    x.to_bits()
}

// A double is told by its bits, in 16 digits.
impl Tell for f64 {
    fn tell(self, out: &mut Output) -> io::Result<()> {
        let bits = bits(self);
        write!(out, " {bits:016x}")
    }
}

pub(crate) fn answer(mut numbers: Numbers<'_>, out: &mut Output) -> Result<(), Failure> {
    let cycles = Cycles(numbers.take()?);
    let instructions = Instructions(numbers.take()?);
    numbers.end()?;
    Ok(average(cycles, instructions).tell(out)?)
}
