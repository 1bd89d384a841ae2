// What a cycle does, decided from the values at its start, and carried out at its end.
ghost use Rattle.std.specs.Prelude.{◌≡◌};
ghost use Rattle.terms.specs.Answers.{pick};
ghost use Rattle.signals.specs.Signals.{reg_write};
ghost use Rattle.datapath.specs.Cycle as of;
ghost use Rattle.datapath.specs.Machines.{machine_state};
ghost use Rattle.datapath.specs.declared.effects.Fault.TheVariants.{Address};
ghost use Rattle.datapath.specs.Effects.{latches_after, effect_after, carried_out};

use crate::machine::Latches;
use crate::memory::Port;
use parts::image::BadAddress;
use parts::{image, registers};
use signals::{mem_write, memto_reg, one_of, pc_write, pc_write_cond, reg_dst, reg_write};
use terms::{ByteAddress, WordIndex, mux};
use words::{fields, upper_and};

// The latches at the cycle's end; the register that takes a value, 0 for none; and the word of the
// image that takes one, if one does. The two stand flat: with an `Option` for each, a run
// under the state table, the ROM, the sequencer or a store took 1.10 to 1.17 times as long.
#[derive(Clone, Copy)]
pub(crate) struct Effect {
    pub latches: Latches,
    pub register: u8,
    pub value: u32,
    pub stores: bool,
    pub word: WordIndex,
    pub stored: u32,
}

// Why a cycle is refused. The address of a refused access and what it was for are worked out only
// then, so that what a cycle decides stays small.
#[derive(Clone, Copy)]
pub(crate) enum Fault {
    Address(BadAddress),
    UnknownFunction,
    NoEntry,
}

impl From<BadAddress> for Fault {
    ghost from_gives = { λ bad fault. fault ≡ Address bad };

    fn from(bad: BadAddress) -> Fault {
        Fault::Address(bad)
    }
}

// The register that a cycle with RegWrite writes, of the instruction at its start: rt, or rd.
pub fn destination(word: u32, ir: u32) -> u8
    ensures { result ≡ of.destination word ir }
{
    if reg_dst(word) {
        return fields::rd(ir);
    }
    fields::rt(ir)
}

// The register that the cycle writes, 0 for none. It is worked out only where one is written.
fn register_of(word: u32, ir: u32) -> u8
    ensures { result ≡ pick (reg_write word) (of.destination word ir) 0 }
{
    if reg_write(word) {
        return destination(word, ir);
    }
    0
}

// PC at the cycle's end.
fn next_pc(word: u32, res: u32, latches: Latches) -> ByteAddress
    ensures { result.0 ≡ of.next_pc word res latches }
{
    let pc = latches.pc;
    let ir = latches.ir;
    if pc_write(word) || (pc_write_cond(word) && res == 0) {
        let jump = upper_and(pc, fields::target(ir));
        let to = jump.as_word();
        return ByteAddress::of(one_of(word >> 9, res, latches.aluout, to, to));
    }
    pc
}

// The latches at the cycle's end, from what memory's port shows, the ALU result and the next state.
#[inline(always)]
fn next_latches(
    word: u32,
    port: Port,
    res: u32,
    state: u32,
    latches: Latches,
    cells: &[u32; 32],
) -> Latches
    ensures { result ≡ latches_after word latches cells.now port.mdr port.ir res state }
{
    let fetched = latches.ir;
    Latches {
        pc: next_pc(word, res, latches),
        ir: port.ir,
        mdr: port.mdr,
        a: registers::read(cells, fields::rs(fetched)),
        b: registers::read(cells, fields::rt(fetched)),
        aluout: res,
        state,
    }
}

// What the cycle does, from what memory's port shows, the ALU result and the next state.
#[inline(always)]
pub(crate) fn effect_of(
    word: u32,
    port: Port,
    res: u32,
    state: u32,
    latches: Latches,
    cells: &[u32; 32],
) -> Effect
    ensures { result
        ≡ effect_after word latches cells.now port.word.0 port.mdr port.ir res state }
{
    let latched = next_latches(word, port, res, state, latches, cells);
    Effect {
        latches: latched,
        register: register_of(word, latches.ir),
        value: mux(memto_reg(word), latches.mdr, latches.aluout),
        stores: mem_write(word),
        word: port.word,
        stored: latches.b,
    }
}

// Carries an effect out, and answers the latches.
#[inline(always)]
pub(crate) fn carry(effect: Effect, cells: &mut [u32; 32], image: &mut [u32]) -> Latches
    ensures { machine_state cells.new result image.new ≡ carried_out effect cells.old image.old }
{
    registers::write(cells, effect.register, effect.value);
    if effect.stores {
        image::store(image, effect.word, effect.stored);
    }
    effect.latches
}
