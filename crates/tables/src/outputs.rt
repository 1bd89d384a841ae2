// What the state table gives, and what a word of ROM or PLA says.
ghost use Rattle.std.specs.Prelude.{◌≡◌};
ghost use Rattle.tables.specs.Outputs as of;

use datapath::Control;
use microcode::{Store, entry_of, gives};
use terms::mux;

// The state after one that does not dispatch.
fn undispatched(state: u32) -> u32
    ensures { result ≡ of.undispatched state }
{
    match state {
        0 => 1,
        3 => 4,
        6 => 7,
        _ => 0,
    }
}

// The state table: a state's word, and its next state by source 002's table. State and opcode are
// the two inputs of any control, here and below, and stay two parameters.
#[tactic(auto, unfolding(microcode::specs::Sequencing::sequence))]
pub fn tabled(store: &Store, state: u32, opcode: u32) -> Control
    ensures { result ≡ of.tabled store.now.words store.now.rom1 store.now.rom2 state opcode }
{
    let word = gives(store, state, opcode).word;
    let next = match state {
        1 => entry_of(&store.rom1, opcode),
        2 => entry_of(&store.rom2, opcode),
        _ => undispatched(state),
    };
    Control { word, next }
}

// What a ROM or PLA word gives: states 1 and 2 dispatch, and never to 0.
pub fn from_entry(state: u32, entry: u32) -> Control
    ensures { result ≡ of.from_entry state entry }
{
    let next = entry % 16;
    let none = next == 0 && (state == 1 || state == 2);
    Control {
        word: entry / 16 * 4,
        next: mux(none, 255, next),
    }
}
