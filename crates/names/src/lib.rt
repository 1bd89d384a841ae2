// Words by the names that a reader knows: the instruction that a word is, and the signals that a
// control word asserts.
#![tactic(auto)]

mod controls;
mod mnemonics;

pub use controls::asserted;
pub use mnemonics::{instruction, register};
