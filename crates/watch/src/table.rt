// The table of a run.
use crate::asked::Asked;
use crate::engines::Engine;
use crate::output;
use crate::output::{BLOCK, Shown};
use datapath::Machine;
use page::Page;
use screen::{Cycle, Seen, Side, beside, head, refused, row};
use single::SingleCycle;
use std::rt::Stdout;
use terms::{Count, Cycles, Instructions, Outcome};

// Where a run stands: the machine with its image, the single-cycle machine after as many
// instructions with its own, and the cycles done.
#[derive(Drop)]
struct Table {
    engine: Engine,
    machine: Machine,
    image: [u32; 64],
    side: Side,
    side_image: [u32; 64],
    done: Cycles,
}

// A run before its first cycle.
fn start(asked: &Asked) -> Table {
    Table {
        engine: asked.engine,
        machine: datapath::reset(),
        image: asked.sheet,
        side: Side {
            instructions: Instructions(0),
            machine: single::reset(),
            outcome: Outcome::Spent,
        },
        side_image: asked.sheet,
        done: Cycles(0),
    }
}

// The single-cycle machine one instruction further, unless it has stopped.
fn further(side: Side, image: &mut [u32]) -> Side {
    let instructions = side.instructions.and_one();
    match side.outcome {
        Outcome::Stopped(_) => Side {
            instructions,
            machine: side.machine,
            outcome: side.outcome,
        },
        Outcome::Spent => {
            let ran = single::run(side.machine, image, Instructions(1));
            Side {
                instructions,
                machine: ran.machine,
                outcome: ran.outcome,
            }
        }
    }
}

impl Table {
    // At a return to fetch, the line of the single-cycle machine.
    fn compare(&mut self, page: &mut Page<'_>) {
        let latches = self.machine.latches;
        if latches.state != 0 {
            return;
        }
        self.side = further(self.side, &mut self.side_image);
        let ours = Seen {
            machine: SingleCycle {
                registers: self.machine.registers,
                pc: latches.pc,
            },
            image: &self.image,
        };
        beside(page, ours, self.side, &self.side_image);
    }
}

impl Shown for Table {
    // The row of the next cycle, and the line of the single-cycle machine.
    fn turn(&mut self, page: &mut Page<'_>) -> bool {
        let before = self.machine;
        let ran = self.engine.cycle(before, &mut self.image);
        // A refused cycle has no end, and its row does not show one.
        let machine = ran.unwrap_or(before);
        let cycle = Cycle {
            number: self.done.and_one(),
            word: self.engine.gives(&before).word,
            sequenced: self.engine.is_sequenced(),
            before: before.latches,
            after: machine.latches,
        };
        if let Err(refusal) = ran {
            refused(page, cycle, refusal);
            return false;
        }
        self.machine = machine;
        self.done = cycle.number;
        row(page, cycle, &machine.registers, &self.image);
        self.compare(page);
        true
    }
}

// The table, and the line that `bench` prints. What it has in common with a dump is `output::show`.
pub(crate) fn print(to: Stdout, asked: &Asked) {
    let mut room = [b' '; BLOCK];
    let mut page = Page::at(&mut room, 0);
    head(&mut page);
    let mut table = start(asked);
    output::show(to, &mut table, asked.budget, &mut page);
    asked.whole_run(&mut page);
    page.put(b'\n');
    // What cannot be written is let go: nobody is there to be told.
    let _ = output::write(to, &page);
}
