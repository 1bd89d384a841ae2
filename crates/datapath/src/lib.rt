// The multicycle datapath: its machine state, and one clock cycle under one control word.
#![tactic(auto)]

mod cycle;
mod effects;
mod machine;
mod memory;
mod operations;

pub use cycle::{Control, tick};
pub use effects::destination;
pub use machine::{Latches, Machine, reset};
pub use memory::address;
