// The machine's record and its run.
ghost use Rattle.std.specs.Prelude.{true, ◌≡◌};
ghost use Rattle.terms.specs.Running.{running};
ghost use Rattle.single.specs.Instruction.{instruction};
ghost use Rattle.single.specs.Running.{at_reset, visible_of, single_run_as, RunsSingle};

use crate::effects::carry;
use crate::executing::decide;
use parts::may_run;
use terms::{ByteAddress, Count, Instructions, Outcome};

// Registers and PC.
#[derive(Clone, Copy)]
pub struct SingleCycle {
    pub registers: [u32; 32],
    pub pc: ByteAddress,
}

// How a run ended, the machine as it then is, and the instructions done.
#[derive(Clone, Copy)]
pub struct SingleRun {
    pub outcome: Outcome,
    pub machine: SingleCycle,
    pub instructions: Instructions,
}

// The machine at reset: zero registers, PC 0.
pub fn reset() -> SingleCycle
    ensures { result ≡ at_reset }
{
    SingleCycle {
        registers: [0u32; 32],
        pc: ByteAddress(0),
    }
}

// Up to `budget` instructions. The multicycle machine's loop is apart: what each carries, counts
// and returns is all there is in them, and a loop over any of these would take it back as
// parameters.
fn go(machine: SingleCycle, image: &mut [u32], budget: Instructions) -> SingleRun
    ensures { single_run_as result image.new
        ≡ running instruction (λ _. true) budget.0 (visible_of machine image.old) }
{
    let mut registers = machine.registers;
    let mut pc = machine.pc;
    for done in 0..budget.number() {
        match decide(&registers, pc, image) {
            Ok(effect) => pc = carry(effect, &mut registers, image),
            Err(refusal) => {
                return SingleRun {
                    outcome: Outcome::Stopped(refusal),
                    machine: SingleCycle { registers, pc },
                    instructions: Instructions::of(done),
                };
            }
        }
    }
    SingleRun {
        outcome: Outcome::Spent,
        machine: SingleCycle { registers, pc },
        instructions: budget,
    }
}

// Runs the machine for up to `budget` instructions: 6 and 7 before it; then each instruction is
// done or refused, and a refused one changes nothing and is not counted.
#[tactic(auto, unfolding(crate::specs::Running::single_run))]
pub fn run(machine: SingleCycle, image: &mut [u32], budget: Instructions) -> SingleRun
    ensures { RunsSingle (visible_of machine image.old) budget.0
        result image.new }
{
    match may_run(image, budget.is_allowed()) {
        Ok(()) => go(machine, image, budget),
        Err(refusal) => SingleRun {
            outcome: Outcome::Stopped(refusal),
            machine,
            instructions: Instructions(0),
        },
    }
}
