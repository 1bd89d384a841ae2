// Cycles per instruction.
ghost use Rattle.terms.specs.Averages.{Averages};

use crate::counts::{Cycles, Instructions};
use crate::refusals::Refusal;

// Cycles divided by instructions, as one double division rounded once; 14 over zero instructions.
pub fn average(cycles: Cycles, instructions: Instructions) -> Result<f64, Refusal>
    ensures { Averages cycles.0 instructions.0 result }
{
    let c = cycles.0;
    let i = instructions.0;
    if i == 0 {
        return Err(Refusal::NoInstructions);
    }
    Ok((c as f64) / (i as f64))
}
