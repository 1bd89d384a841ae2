// The runs of the multicycle machine: under a fixed unit, and under a store.
ghost use Rattle.std.specs.Prelude.{◌≡◌};
ghost use Rattle.datapath.specs.Machines.{with_image};
ghost use Rattle.terms.specs.Refusals.{reply_of};
ghost use Rattle.control.specs.Running.{RunsTo, unit_asks, unit_run};
ghost use Rattle.control.specs.Running.{start_asks, store_asks, store_run};

use crate::running::{MachineRun, start};
use crate::units::Unit;
use datapath::{Latches, Machine};
use microcode::{Store, fixed_store};
use parts::may_run;
use tables::{entry_at, from_entry, pla, rom_table, tabled};
use terms::{Count, Cycles, Refusal, only_if};
use walks::survey;
use words::fields::opcode;

// What a run under a unit asks before it starts: 6, 7, then 5. Machine, image and budget stay
// three parameters: `run` and `run_store` are public and take them so.
fn ask(machine: Machine, image: &[u32], budget: Cycles) -> Result<(), Refusal>
    ensures { reply_of result ≡ unit_asks (with_image machine image.now) budget.0 }
{
    let has = machine.latches.state <= 9;
    may_run(image, budget.is_allowed())?;
    only_if(has, Refusal::StartState)
}

// Whether a store takes a machine's start: 12, 13, then 5.
fn ask_start(store: &Store, latches: Latches) -> Result<(), Refusal>
    ensures { reply_of result ≡ start_asks store.now latches }
{
    let surveyed = survey(store, opcode(latches.ir), latches.state);
    surveyed.reply?;
    only_if(latches.state == 0 || surveyed.met, Refusal::StartState)
}

// What a run under a store asks before it starts: 6, 7, 12, 13, then 5.
fn ask_store(store: &Store, machine: Machine, image: &[u32], budget: Cycles) -> Result<(), Refusal>
    ensures { reply_of result ≡ store_asks store.now (with_image machine image.now) budget.0 }
{
    may_run(image, budget.is_allowed())?;
    ask_start(store, machine.latches)
}

// Runs a machine under a unit for up to `budget` cycles: 6, 7 and 5 before it; then each cycle is
// done or refused, and a refused one changes nothing and is not counted. It does not run under
// `gives`, which makes the tables anew each time that it is asked.
pub fn run(unit: Unit, machine: Machine, image: &mut [u32], budget: Cycles) -> MachineRun
    ensures { RunsTo (unit_run unit (with_image machine image.old) budget.0) result image.new }
{
    let asked = ask(machine, image, budget);
    let store = fixed_store();
    match unit {
        Unit::StateTable => {
            let gives = |state, opcode| tabled(&store, state, opcode);
            start(asked, gives, machine, image, budget)
        }
        Unit::Rom => {
            let entries = rom_table();
            let gives = |state, opcode| from_entry(state, entry_at(&entries, state, opcode));
            start(asked, gives, machine, image, budget)
        }
        Unit::Pla => {
            let gives = |state, opcode| from_entry(state, pla(state, opcode));
            start(asked, gives, machine, image, budget)
        }
        Unit::Sequencer => {
            let gives = |state, opcode| microcode::gives(&store, state, opcode);
            start(asked, gives, machine, image, budget)
        }
    }
}

// Runs a machine under a store for up to `budget` cycles: 6, 7, 12, 13 and 5 before it; then each
// cycle is done or refused, and a refused one changes nothing and is not counted.
#[tactic(auto, unfolding(crate::specs::Running::store_run))]
pub fn run_store(store: &Store, machine: Machine, image: &mut [u32], budget: Cycles) -> MachineRun
    ensures { RunsTo (store_run store.now (with_image machine image.old) budget.0)
        result image.new }
{
    let asked = ask_store(store, machine, image, budget);
    let gives = |state, opcode| microcode::gives(store, state, opcode);
    start(asked, gives, machine, image, budget)
}
