// The walk of an opcode, followed by recursion on the states not yet entered.
ghost use Rattle.std.specs.Prelude.{◌≡◌, true, false, ◌∷◌, ◌<◌, take, replicate, None};
ghost use Rattle.walks.specs.Following.{seen_of, Visits, Follows, walking};
ghost use Rattle.walks.specs.Walk as of;

use crate::breaches::{Breach, broken};
use microcode::{Store, gives};
use rules::{Exit, writes};

// A walk: its states in order, with 255 in the places after the last, and how it leaves the last.
// Sixteen places and no `Vec`, since the library allocates nothing; `Walk.walked_of` fixes the 255.
#[derive(Clone, Copy)]
pub struct Walked {
    pub states: [u8; 16],
    pub end: Exit,
}

// Whether a state is one of the sixteen and not yet entered.
fn may_enter(unentered: &[bool; 16], state: u32) -> bool
    ensures { result ≡ of.may_enter unentered.now state }
{
    let at = state as usize;
    if at < 16 {
        return unentered[at];
    }
    false
}

// How the walk leaves a state, once it is entered, for what the store gives next.
fn leave(unentered: &[bool; 16], next: u32) -> Exit
    ensures { result ≡ of.exit_to unentered.now next }
{
    if next == 255 {
        return Exit::Missing;
    }
    if next == 0 {
        return Exit::Back;
    }
    if may_enter(unentered, next) {
        return Exit::Onward(next as u8);
    }
    Exit::Barred
}

// What a state on a walk gives: its word, the states that are then unentered, and how the walk
// leaves it.
#[derive(Clone, Copy)]
struct Seen {
    word: u32,
    left: [bool; 16],
    exit: Exit,
}

#[tactic(auto, unfolding(microcode::specs::Sequencing::sequence))]
fn see(store: &Store, opcode: u32, unentered: [bool; 16], state: u8) -> Seen
    requires { state < 16 }
    ensures { result ≡ seen_of store.now opcode unentered state }
{
    let given = gives(store, u32::from(state), opcode);
    let mut left = unentered;
    left[usize::from(state)] = false;
    Seen {
        word: given.word,
        left,
        exit: leave(&left, given.next),
    }
}

// A state put before others: the last place falls out.
fn before(state: u8, mut states: [u8; 16]) -> [u8; 16]
    ensures { result ≡ state ∷ take 15 states }
{
    states.rotate_right(1);
    states[0] = state;
    states
}

// What following a walk shows: its first breach, and the walk.
#[derive(Clone, Copy)]
pub(crate) struct Followed {
    pub breach: Option<Breach>,
    pub walk: Walked,
}

// A state of a walk, with what the rest of the walk shows.
fn visit(state: u8, word: u32, written: bool, exit: Exit, rest: Followed) -> Followed
    ensures { Visits state word written exit rest result }
{
    let states = before(state, rest.walk.states);
    Followed {
        breach: broken(state, word, written, exit).or(rest.breach),
        walk: Walked {
            states,
            end: rest.walk.end,
        },
    }
}

// What no further state shows.
fn nothing(exit: Exit) -> Followed
    ensures { result ≡ record {
      breach = None;
      walk = record { states = replicate 16 255; end = exit };
    } }
{
    let states = [255u8; 16];
    Followed {
        breach: None,
        walk: Walked { states, end: exit },
    }
}

// Follows the walk of an opcode from a state on, with the states not yet entered, whose number
// falls with each call. `written` says whether an earlier state writes.
fn follow_from(
    store: &Store,
    opcode: u32,
    unentered: [bool; 16],
    written: bool,
    state: u8,
) -> Followed
    requires { of.may_enter unentered state ≡ true }
    ensures { Follows store.now opcode written Exit.Back
        (walking store.now opcode unentered state) result }
{
    let seen = see(store, opcode, unentered, state);
    let word = seen.word;
    let left = seen.left;
    let exit = seen.exit;
    let Exit::Onward(next) = exit else {
        return visit(state, word, written, exit, nothing(exit));
    };
    let since = written | writes(word);
    let rest = follow_from(store, opcode, left, since, next);
    visit(state, word, written, exit, rest)
}

// Follows the walk of an opcode.
pub(crate) fn follow(store: &Store, opcode: u32) -> Followed
    ensures { Follows store.now opcode false Exit.Back (of.walk_of store.now opcode) result }
{
    follow_from(store, opcode, [true; 16], false, 0)
}

// The walk of an opcode through a store.
pub fn walk(store: &Store, opcode: u32) -> Walked
    ensures { result ≡ of.walked_of store.now opcode }
{
    follow(store, opcode).walk
}
