// What a sheet's program does under the sequencer.
ghost use Rattle.bench.specs.Trials.{Prints};

use control::{Unit, run};
use datapath::reset;
use sheet::parse;
use terms::{ByteAddress, Cycles, Instructions};

// The four numbers that are printed of a run; refusal is 0 where the budget is spent.
#[derive(Clone, Copy)]
pub(crate) struct Line {
    pub(crate) cycles: Cycles,
    pub(crate) instructions: Instructions,
    pub(crate) refusal: u32,
    pub(crate) pc: ByteAddress,
}

// Runs the program of a sheet for at most 1,000 cycles. A text that is no sheet has no line.
#[tactic(auto, unfolding(crate::specs::Trials::trial))]
pub(crate) fn answer(text: &[u8]) -> Option<Line>
    ensures { Prints text.now result }
{
    let mut image = parse(text)?;
    let ran = run(Unit::Sequencer, reset(), &mut image, Cycles(1000));
    Some(Line {
        cycles: ran.cycles,
        instructions: ran.instructions,
        refusal: ran.outcome.number(),
        pc: ran.machine.latches.pc,
    })
}
