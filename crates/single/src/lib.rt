// The single-cycle machine: one instruction at a time, as MIPS32 has it, and its run.
#![tactic(auto)]

mod effects;
mod executing;
mod machine;

pub use machine::{SingleCycle, SingleRun, reset, run};
