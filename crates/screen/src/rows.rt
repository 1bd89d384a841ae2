// The table of a run: its head, a row a cycle, and its last lines.
ghost use Rattle.page.specs.Lent.{Becomes};
ghost use Rattle.screen.specs.Rows as of;

use datapath::{Latches, address, destination};
use meanings::refusal_text;
use names::{asserted, instruction, register};
use page::Page;
use parts::{image, registers};
use terms::{ByteAddress, Cycles, Instructions, Outcome, Refusal};

// One clock cycle: its number, what the control gave, with AddrCtl where that is a sequencer, and
// the latches at its start and at its end.
#[derive(Clone, Copy)]
pub struct Cycle {
    pub number: Cycles,
    pub word: u32,
    pub sequenced: bool,
    pub before: Latches,
    pub after: Latches,
}

// The two lines over the table.
pub fn head(page: &mut Page<'_>)
    ensures { Becomes page.old page.new of.head }
{
    page.text(b"  cycle st PC       IR       MDR      A        B        ");
    page.text(b"ALUOut   instruction in IR    register        memory\n");
    page.text(b"           signals asserted\n");
}

#[tactic(auto, unfolding(crate::specs::Rows::column))]
fn column(page: &mut Page<'_>, word: u32)
    ensures { Becomes page.old page.new (of.column word) }
{
    page.put(b' ');
    page.hex(word);
}

// PC, IR, MDR, A, B and ALUOut.
#[tactic(auto, unfolding(crate::specs::Rows::latch_columns))]
fn latched(page: &mut Page<'_>, latches: Latches)
    ensures { Becomes page.old page.new (of.latch_columns latches) }
{
    column(page, latches.pc.as_word());
    column(page, latches.ir);
    column(page, latches.mdr);
    column(page, latches.a);
    column(page, latches.b);
    column(page, latches.aluout);
}

// What a register took. A write to register 0 is dropped.
#[tactic(auto, unfolding(crate::specs::Rows::taken))]
fn taken(page: &mut Page<'_>, number: u8, cells: &[u32; 32])
    ensures { Becomes page.old page.new (of.taken number cells.now) }
{
    register(page, number);
    if number == 0 {
        page.text(b" dropped");
    } else {
        page.text(b" = ");
        page.hex(registers::read(cells, number));
    }
}

// The word at an address, and what it holds.
#[tactic(auto, unfolding(crate::specs::Rows::held))]
fn held(page: &mut Page<'_>, address: ByteAddress, image: &[u32])
    ensures { Becomes page.old page.new (of.held address.0 image.now) }
{
    page.text(b"word ");
    page.decimal(address.word_index().0);
    if let Ok(value) = image::fetch(image, address) {
        page.text(b" = ");
        page.hex(value);
    }
}

// What the cycle wrote to a register, in its column.
#[tactic(auto, unfolding(crate::specs::Rows::register_column))]
fn register_column(page: &mut Page<'_>, start: usize, word: u32, ir: u32, cells: &[u32; 32])
    ensures { Becomes page.old page.new (of.register_column start word ir cells.now) }
{
    if signals::reg_write(word) {
        page.blanks(start.wrapping_add(86));
        taken(page, destination(word, ir), cells);
    }
}

// What the cycle wrote to memory, in its column. One function of both columns is no plainer: it
// would take what is written as a closure, and three lines are all that they share.
#[tactic(auto, unfolding(crate::specs::Rows::memory_column))]
fn memory_column(page: &mut Page<'_>, start: usize, word: u32, latches: Latches, image: &[u32])
    ensures { Becomes page.old page.new (of.memory_column start word latches image.now) }
{
    if signals::mem_write(word) {
        page.blanks(start.wrapping_add(102));
        held(page, address(word, latches), image);
    }
}

// The number of a cycle, and the state that it is in.
#[tactic(auto, unfolding(crate::specs::Rows::stage))]
fn stage(page: &mut Page<'_>, number: Cycles, state: u32)
    ensures { Becomes page.old page.new (of.stage number.0 state) }
{
    page.places(7, number.0);
    page.put(b' ');
    page.places(2, state);
}

// The line of signals below a cycle.
#[tactic(auto, unfolding(crate::specs::Rows::signal_line, page::specs::Lent::seen))]
fn signal_line(page: &mut Page<'_>, word: u32, sequenced: bool)
    ensures { Becomes page.old page.new (of.signal_line word sequenced) }
{
    page.text(b"          ");
    let from = page.place;
    asserted(page, word, sequenced);
    if page.place == from {
        page.text(b" none\n");
    } else {
        page.put(b'\n');
    }
}

// The row of a cycle that was done, and its line of signals. Registers and memory are those at its
// end.
#[tactic(auto, unfolding(crate::specs::Rows::row, page::specs::Lent::seen))]
pub fn row(page: &mut Page<'_>, cycle: Cycle, cells: &[u32; 32], image: &[u32])
    ensures { Becomes page.old page.new (of.row cycle cells.now image.now) }
{
    let before = cycle.before;
    let after = cycle.after;
    let word = cycle.word;
    let start = page.place;
    stage(page, cycle.number, before.state);
    latched(page, after);
    page.put(b' ');
    instruction(page, after.ir);
    register_column(page, start, word, before.ir, cells);
    memory_column(page, start, word, before, image);
    page.put(b'\n');
    signal_line(page, word, cycle.sequenced);
}

// The row of a cycle that was refused, and its line of signals.
#[tactic(auto, unfolding(crate::specs::Rows::refused))]
pub fn refused(page: &mut Page<'_>, cycle: Cycle, refusal: Refusal)
    ensures { Becomes page.old page.new (of.refused cycle refusal) }
{
    stage(page, cycle.number, cycle.before.state);
    page.text(b" refused with ");
    refusal_text(page, refusal);
    page.put(b'\n');
    signal_line(page, cycle.word, cycle.sequenced);
}

// The line of a run as `bench` prints it: cycles, instructions, refusal and PC.
#[tactic(auto, unfolding(crate::specs::Rows::totals))]
pub fn totals(
    page: &mut Page<'_>,
    cycles: Cycles,
    instructions: Instructions,
    outcome: Outcome,
    pc: ByteAddress,
)
    ensures { Becomes page.old page.new (of.totals cycles.0 instructions.0 outcome pc.0) }
{
    page.decimal(cycles.0);
    page.put(b' ');
    page.decimal(instructions.0);
    page.put(b' ');
    page.decimal(outcome.number());
    page.put(b' ');
    page.decimal(pc.as_word());
}
