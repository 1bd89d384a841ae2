// The value change dump of a run.
use crate::asked::Asked;
use crate::engines::Engine;
use crate::output;
use crate::output::{BLOCK, Shown};
use datapath::Machine;
use dump::{Sample, changes, closing, opening};
use page::Page;
use std::rt::Stdout;
use terms::{Count, Cycles};

// Where a run stands: the machine with its image, what stands since the last clock, and the cycles
// done.
#[derive(Drop)]
struct Wave {
    engine: Engine,
    machine: Machine,
    image: [u32; 64],
    sample: Sample,
    done: Cycles,
}

// What stands between two clocks.
fn sampled(engine: &Engine, machine: &Machine) -> Sample {
    Sample {
        latches: machine.latches,
        word: engine.gives(machine).word,
        sequenced: engine.is_sequenced(),
    }
}

// A run before its first clock.
fn start(asked: &Asked) -> Wave {
    let machine = datapath::reset();
    Wave {
        engine: asked.engine,
        machine,
        image: asked.sheet,
        sample: sampled(&asked.engine, &machine),
        done: Cycles(0),
    }
}

impl Shown for Wave {
    // The clock that ends the next cycle; none ends a cycle that is refused.
    fn turn(&mut self, page: &mut Page<'_>) -> bool {
        let Ok(machine) = self.engine.cycle(self.machine, &mut self.image) else {
            return false;
        };
        let old = self.sample;
        self.machine = machine;
        self.sample = sampled(&self.engine, &machine);
        self.done = self.done.and_one();
        changes(page, self.done, old, self.sample);
        true
    }
}

// The dump, and in its last line what `bench` prints.
pub(crate) fn dump(to: Stdout, asked: &Asked) {
    let mut room = [b' '; BLOCK];
    let mut page = Page::at(&mut room, 0);
    let mut wave = start(asked);
    opening(&mut page, wave.sample);
    output::show(to, &mut wave, asked.budget, &mut page);
    closing(&mut page, wave.done);
    page.text(b"$comment cycles instructions refusal PC: ");
    asked.whole_run(&mut page);
    page.text(b" $end\n");
    // What cannot be written is let go: nobody is there to be told.
    let _ = output::write(to, &page);
}
