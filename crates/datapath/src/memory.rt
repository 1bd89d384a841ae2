// What memory's port shows in a cycle.
ghost use Rattle.std.specs.Prelude.{◌≡◌};
ghost use Rattle.terms.specs.Answers.{pick};
ghost use Rattle.terms.specs.Refusals.{refusal_of, no_at};
ghost use Rattle.parts.specs.Image.{bad_number};
ghost use Rattle.datapath.specs.Cycle.{address, access_kind};
ghost use Rattle.datapath.specs.Effects.{port_as, showing, shown_as, shown};

use crate::machine::Latches;
use parts::image;
use parts::image::{BadAddress, refusal_at};
use signals::{ior_d, ir_write, mem_read, mem_write};
use terms::{AccessKind, ByteAddress, Refusal, WordIndex, mux};

// What memory's port shows: the word that the access goes to, and MDR and IR at the cycle's end.
#[derive(Clone, Copy)]
pub(crate) struct Port {
    pub word: WordIndex,
    pub mdr: u32,
    pub ir: u32,
}

// Where the cycle reads or writes memory: at PC, or at ALUOut. Control word and latches stay two
// parameters, here and below: this function is public and takes them so.
pub fn address(word: u32, latches: Latches) -> ByteAddress
    ensures { result.0 ≡ address word latches }
{
    let pc = latches.pc;
    ByteAddress::of(mux(ior_d(word), latches.aluout, pc.as_word()))
}

// What an access is for: one that writes is a store, one that reads into IR a fetch, any other a
// load.
fn kind_by(writes: bool, fetches: bool) -> AccessKind
    ensures { result
        ≡ pick writes AccessKind.Store (pick fetches AccessKind.Fetch AccessKind.Load) }
{
    if writes {
        return AccessKind::Store;
    }
    if fetches {
        return AccessKind::Fetch;
    }
    AccessKind::Load
}

// What the cycle's access is for.
fn access_kind(word: u32) -> AccessKind
    ensures { result ≡ access_kind word }
{
    kind_by(mem_write(word), ir_write(word))
}

// The refusal of the cycle's access.
pub(crate) fn refused_access(bad: BadAddress, word: u32, latches: Latches) -> Refusal
    ensures { refusal_of result ≡ no_at (bad_number bad) (address word latches) (access_kind word) }
{
    refusal_at(bad, address(word, latches), access_kind(word))
}

// What the port shows once its word is known.
fn latch(word: u32, latches: Latches, at: WordIndex, image: &[u32]) -> Port
    ensures { shown_as result ≡ shown word latches image.now at.0 }
{
    let read = image::word(image, at);
    let reads = mem_read(word);
    Port {
        word: at,
        mdr: mux(reads, read, latches.mdr),
        ir: mux(reads && ir_write(word), read, latches.ir),
    }
}

// A cycle that does not use memory does not wait for what another one read into IR.
#[inline(always)]
pub(crate) fn memory_port(word: u32, latches: Latches, image: &[u32]) -> Result<Port, BadAddress>
    ensures { port_as word latches result ≡ showing word latches image.now }
{
    if mem_read(word) || mem_write(word) {
        let at = image::access(image, address(word, latches))?;
        return Ok(latch(word, latches, at, image));
    }
    Ok(Port {
        word: WordIndex(0),
        mdr: latches.mdr,
        ir: latches.ir,
    })
}
