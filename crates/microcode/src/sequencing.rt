// What a store gives in a state for an opcode.
ghost use Rattle.std.specs.Prelude.{◌≡◌};
ghost use Rattle.microcode.specs.Sequencing as of;

use crate::stores::Store;
use datapath::Control;
use signals::one_of;

// The word of a state. No number past 15 is used as an index.
fn word_of(words: &[u32; 16], state: u32) -> u32
    ensures { result ≡ of.word_of words.now state }
{
    let at = state as usize;
    if at < 16 {
        return words[at];
    }
    0
}

// A ROM's entry for an opcode: a state, or 255 for none, as it stands in the ROM (no `Option`,
// which would only be made from the number and turned back into it: `Sequencing.entry_of` is the
// number).
pub fn entry_of(rom: &[u8; 64], opcode: u32) -> u32
    ensures { result ≡ of.entry_of rom.now opcode }
{
    let at = opcode as usize;
    if at < 64 {
        return u32::from(rom[at]);
    }
    255
}

// What a store gives in a state for an opcode: the control word of the state, and the state that
// follows by AddrCtl.
#[tactic(auto, unfolding(crate::specs::Sequencing::sequence))]
pub fn gives(store: &Store, state: u32, opcode: u32) -> Control
    ensures { result ≡ of.store_gives store.now state opcode }
{
    let word = word_of(&store.words, state);
    let next = one_of(
        word,
        0,
        entry_of(&store.rom1, opcode),
        entry_of(&store.rom2, opcode),
        state % 16 + 1,
    );
    Control { word, next }
}
