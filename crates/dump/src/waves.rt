// A run as a value change dump (IEEE 1364). Clock k rises at time 10 k: from there on stand the
// latches after k cycles, and the signals of the cycle that follows.
ghost use Rattle.page.specs.Lent.{Becomes};
ghost use Rattle.dump.specs.Waves as of;

use crate::declared::declarations;
use crate::values::{Change, spelled, vector, wire};
use datapath::Latches;
use page::Page;
use terms::{Count, Cycles};

// What stands between two clocks: the latches, and what the control gives for them. AddrCtl is
// shown where the control is a sequencer.
#[derive(Clone, Copy)]
pub struct Sample {
    pub latches: Latches,
    pub word: u32,
    pub sequenced: bool,
}

// State, PC, IR and MDR.
#[tactic(auto, unfolding(crate::specs::Waves::fetch_changes))]
fn fetched(page: &mut Page<'_>, change: Change<Latches>)
    ensures { Becomes page.old page.new (of.fetch_changes change) }
{
    vector(page, change.map(|latches| latches.state), 4, b's');
    vector(page, change.map(|latches| latches.pc.as_word()), 32, b'p');
    vector(page, change.map(|latches| latches.ir), 32, b'i');
    vector(page, change.map(|latches| latches.mdr), 32, b'm');
}

// The latches, and the instruction in IR.
#[tactic(auto, unfolding(crate::specs::Waves::latch_changes))]
fn latched(page: &mut Page<'_>, change: Change<Latches>)
    ensures { Becomes page.old page.new (of.latch_changes change) }
{
    fetched(page, change);
    vector(page, change.map(|latches| latches.a), 32, b'a');
    vector(page, change.map(|latches| latches.b), 32, b'b');
    vector(page, change.map(|latches| latches.aluout), 32, b'o');
    spelled(page, change.map(|latches| latches.ir));
}

// The signals of a control word. AddrCtl is among them where it is shown.
#[tactic(auto, unfolding(crate::specs::Waves::upper_changes, crate::specs::Waves::middle_changes, crate::specs::Waves::alu_changes, crate::specs::Waves::lower_changes))]
fn asserted(page: &mut Page<'_>, word: Change<u32>, sequenced: bool)
    ensures { Becomes page.old page.new (of.signal_changes word sequenced) }
{
    wire(page, word.map(signals::pc_write), b'A');
    wire(page, word.map(signals::pc_write_cond), b'B');
    wire(page, word.map(signals::ior_d), b'C');
    wire(page, word.map(signals::mem_read), b'D');
    wire(page, word.map(signals::mem_write), b'E');
    wire(page, word.map(signals::ir_write), b'F');
    wire(page, word.map(signals::memto_reg), b'G');
    vector(page, word.map(signals::pc_source), 2, b'H');
    vector(page, word.map(signals::alu_op), 2, b'I');
    vector(page, word.map(signals::alu_src_b), 2, b'J');
    wire(page, word.map(signals::alu_src_a), b'K');
    wire(page, word.map(signals::reg_write), b'L');
    wire(page, word.map(signals::reg_dst), b'M');
    if sequenced {
        vector(page, word.map(signals::addr_ctl), 2, b'N');
    }
}

// What is new in a sample.
#[tactic(auto, unfolding(crate::specs::Waves::news))]
fn news(page: &mut Page<'_>, change: Change<Sample>)
    ensures { Becomes page.old page.new (of.news change) }
{
    latched(page, change.map(|sample| sample.latches));
    asserted(page, change.map(|sample| sample.word), change.new.sequenced);
}

// The start of a dump: the names, and all that stands before the first clock.
#[tactic(auto, unfolding(crate::specs::Waves::opening))]
pub fn opening(page: &mut Page<'_>, sample: Sample)
    ensures { Becomes page.old page.new (of.opening sample) }
{
    declarations(page, sample.sequenced);
    page.text(b"#0\n$dumpvars\n1c\n");
    let change = Change {
        old: None,
        new: sample,
    };
    news(page, change);
    page.text(b"$end\n#5\n0c\n");
}

// A time: some tens, and a last digit.
#[tactic(auto, unfolding(crate::specs::Waves::time))]
fn time(page: &mut Page<'_>, tens: Cycles, last: u8)
    ensures { Becomes page.old page.new (of.time tens.0 last) }
{
    page.put(b'#');
    page.decimal(tens.0);
    page.put(last);
    page.put(b'\n');
}

// The clock that ends a cycle, and what changes at it.
#[tactic(auto, unfolding(crate::specs::Waves::changes))]
pub fn changes(page: &mut Page<'_>, done: Cycles, old: Sample, new: Sample)
    ensures { Becomes page.old page.new (of.changes done.0 old new) }
{
    time(page, done, b'0');
    page.text(b"1c\n");
    let change = Change {
        old: Some(old),
        new,
    };
    news(page, change);
    time(page, done, b'5');
    page.text(b"0c\n");
}

// The end of a dump, after all cycles.
#[tactic(auto, unfolding(crate::specs::Waves::closing))]
pub fn closing(page: &mut Page<'_>, done: Cycles)
    ensures { Becomes page.old page.new (of.closing done.0) }
{
    time(page, done.and_one(), b'0');
}
