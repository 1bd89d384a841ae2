// What is run.
use crate::engines::Engine;
use page::Page;
use screen::totals;
use terms::Cycles;

// A sheet, run from reset under an engine with a budget.
#[derive(Clone, Copy)]
pub(crate) struct Asked {
    pub engine: Engine,
    pub sheet: [u32; 64],
    pub budget: Cycles,
}

impl Asked {
    // Puts what the run with the whole budget comes to on the page, in the four numbers that
    // `bench` prints. The sheet stays as it is.
    pub(crate) fn whole_run(&self, page: &mut Page<'_>) {
        let mut image = self.sheet;
        let ran = self.engine.run(&mut image, self.budget);
        totals(
            page,
            ran.cycles,
            ran.instructions,
            ran.outcome,
            ran.machine.latches.pc,
        );
    }
}
