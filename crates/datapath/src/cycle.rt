// One clock cycle.
ghost use Rattle.std.specs.Prelude.{◌≡◌};
ghost use Rattle.terms.specs.Refusals.{refusal_of};
ghost use Rattle.datapath.specs.Cycle.{entered};
ghost use Rattle.datapath.specs.Effects.{fault_of, entered_as, decision_as, deciding};
ghost use Rattle.datapath.specs.Ticking.{Ticks};

use crate::effects::{Effect, Fault, carry, effect_of};
use crate::machine::Latches;
use crate::memory::{memory_port, refused_access};
use crate::operations::operate;
use terms::Refusal;

// What a control gives: a control word, of which the cycle reads bits 17 to 2, and the number of
// the next state, 255 where an opcode has no entry. No `Option`: 255 is what a store's ROMs hold,
// and `datapath.specs.Cycle.entered` reads it so.
#[derive(Clone, Copy)]
pub struct Control {
    pub word: u32,
    pub next: u32,
}

// The state that a cycle enters; none where an opcode has no entry.
fn entered(next: u32) -> Option<u32>
    ensures { entered_as result ≡ entered next }
{
    if next == 255 {
        return None;
    }
    Some(next)
}

// What the cycle does, or why it is refused: 1 or 2, then 4, then 3. Latches, register file and
// image stay three parameters: the file is lent to be read and then written, while the latches are
// a copy.
#[inline(always)]
fn decide(
    control: Control,
    latches: Latches,
    cells: &[u32; 32],
    image: &[u32],
) -> Result<Effect, Fault>
    ensures { decision_as control.word latches result
        ≡ deciding control latches cells.now image.now }
{
    let word = control.word;
    let port = memory_port(word, latches, image)?;
    let res = operate(word, latches).ok_or(Fault::UnknownFunction)?;
    let state = entered(control.next).ok_or(Fault::NoEntry)?;
    Ok(effect_of(word, port, res, state, latches, cells))
}

// The refusal of a cycle under a control word, at the latches of its start.
fn refusal_of(fault: Fault, word: u32, latches: Latches) -> Refusal
    ensures { refusal_of result ≡ fault_of word latches fault }
{
    match fault {
        Fault::Address(bad) => refused_access(bad, word, latches),
        Fault::UnknownFunction => Refusal::UnknownFunction,
        Fault::NoEntry => Refusal::NoEntry,
    }
}

// One clock cycle under what a control gives. A refused cycle changes nothing. It stands in line in
// each loop that runs it, with what it calls: else what is decided goes through memory, and a step
// takes twice as long.
#[inline(always)]
pub fn tick(
    control: Control,
    latches: Latches,
    cells: &mut [u32; 32],
    image: &mut [u32],
) -> Result<Latches, Refusal>
    ensures { Ticks control latches cells.old image.old result cells.new image.new }
{
    match decide(control, latches, cells, image) {
        Ok(effect) => Ok(carry(effect, cells, image)),
        Err(fault) => Err(refusal_of(fault, control.word, latches)),
    }
}
