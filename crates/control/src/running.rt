// The one loop.
ghost use Rattle.std.specs.Prelude.{◌≡◌, ℕ, ◌+◌, ◌%◌, ◌^◌, ◌==◌};
ghost use Rattle.datapath.specs.Machines.{with_image, fetching};
ghost use Rattle.datapath.specs.declared.cycle.Control.{Control};
ghost use Rattle.terms.specs.Refusals.{reply_of};
ghost use Rattle.terms.specs.Running.{running, one_if, unless};
ghost use Rattle.control.specs.Running.{ran_as};
ghost use Rattle.control.specs.Sources.{cycle_by, GivesAs};

use datapath::{Control, Machine, tick};
use terms::{Count, Cycles, Instructions, Outcome, Refusal};
use words::fields::opcode;

// How a run ended, the machine as it then is, the cycles done and the instructions done.
#[derive(Clone, Copy)]
pub struct MachineRun {
    pub outcome: Outcome,
    pub machine: Machine,
    pub cycles: Cycles,
    pub instructions: Instructions,
}

// The instructions done, after a cycle that enters a state: one more where that is 0.
fn counted(instructions: Instructions, state: u32) -> Instructions
    ensures { result.0 ≡ (instructions.0 + one_if (state == 0)) % 2 ^ 32 }
{
    if state == 0 {
        return instructions.and_one();
    }
    instructions
}

// What a control gives in a state for an opcode. A control is a closure, and no type with a trait
// of its own whose law would say what is given: four lines at the callers, and no impl.
fn give<F: Fn(u32, u32) -> Control>(gives: &F, state: u32, code: u32) -> Control
    requires { F.IsAlwaysCallable gives.now }
    ensures { (given : ℕ → ℕ → Control) → GivesAs (F.post gives.now) given
        → result ≡ given state code }
{
    gives(state, code)
}

// Up to `budget` cycles, each under what the control gives in its state for the opcode in IR. Each
// control has a loop of its own, out of line, so that no caller makes it slower.
#[inline(never)]
fn go<F: Fn(u32, u32) -> Control>(
    gives: F,
    machine: Machine,
    image: &mut [u32],
    budget: Cycles,
) -> MachineRun
    requires { F.IsAlwaysCallable gives }
    ensures { (given : ℕ → ℕ → Control) → GivesAs (F.post gives) given
        → ran_as result image.new
        ≡ running (cycle_by given) fetching budget.0 (with_image machine image.old) }
{
    let mut cells = machine.registers;
    let mut latches = machine.latches;
    let mut instructions = Instructions(0);
    for done in 0..budget.number() {
        let control = give(&gives, latches.state, opcode(latches.ir));
        match tick(control, latches, &mut cells, image) {
            Ok(after) => {
                instructions = counted(instructions, after.state);
                latches = after;
            }
            Err(refusal) => {
                return MachineRun {
                    outcome: Outcome::Stopped(refusal),
                    machine: Machine {
                        registers: cells,
                        latches,
                    },
                    cycles: Cycles::of(done),
                    instructions,
                };
            }
        }
    }
    MachineRun {
        outcome: Outcome::Spent,
        machine: Machine {
            registers: cells,
            latches,
        },
        cycles: budget,
        instructions,
    }
}

// A run that asks first: where it is refused before it starts, the machine as given, and zeros.
pub(crate) fn start<F: Fn(u32, u32) -> Control>(
    asked: Result<(), Refusal>,
    gives: F,
    machine: Machine,
    image: &mut [u32],
    budget: Cycles,
) -> MachineRun
    requires { F.IsAlwaysCallable gives }
    ensures { (given : ℕ → ℕ → Control) → GivesAs (F.post gives) given
        → ran_as result image.new
        ≡ unless (reply_of asked) (with_image machine image.old)
        (running (cycle_by given) fetching budget.0 (with_image machine image.old)) }
{
    match asked {
        Ok(()) => go(gives, machine, image, budget),
        Err(refusal) => MachineRun {
            outcome: Outcome::Stopped(refusal),
            machine,
            cycles: Cycles(0),
            instructions: Instructions(0),
        },
    }
}
