// Standard output, in blocks.
use page::Page;
use std::io;
use std::rt::Stdout;
use terms::Cycles;

// A block is written when fewer bytes than this are left of 65,536: no cycle takes as many.
const NEARLY: usize = 61440;

// How many bytes a block has.
pub(crate) const BLOCK: usize = 65536;

// A run as it is shown, cycle by cycle.
pub(crate) trait Shown {
    // Puts what there is to see of the next cycle on the page. Whether the cycle was done, so that
    // another may follow.
    fn turn(&mut self, page: &mut Page<'_>) -> bool;
}

// Writes what stands on the page.
pub(crate) fn write(to: Stdout, page: &Page<'_>) -> io::Result<()> {
    match page.bytes.get(..page.place) {
        Some(bytes) => to.write_all(bytes),
        None => Ok(()),
    }
}

// Writes what stands on the page if it is nearly a block, and begins it anew.
fn flush(to: Stdout, page: &mut Page<'_>) -> io::Result<()> {
    if NEARLY < page.place {
        let written = write(to, page);
        page.place = 0;
        return written;
    }
    Ok(())
}

// Shows as many cycles as the budget has, or fewer, where one is refused or a block cannot be
// written. What is left of them waits on the page.
pub(crate) fn show<S: Shown>(to: Stdout, shown: &mut S, budget: Cycles, page: &mut Page<'_>) {
    for _ in 0..budget.0 {
        if !shown.turn(page) || flush(to, page).is_err() {
            return;
        }
    }
}
