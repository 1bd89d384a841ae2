// The paper's terms: four counts that never mix, refusals with their numbers, how a run ends, the
// average cycles per instruction, and a multiplexor.
#![tactic(auto)]

mod averages;
mod counts;
mod gates;
mod refusals;

pub use averages::average;
pub use counts::{ByteAddress, Count, Cycles, Instructions, WordIndex};
pub use gates::mux;
pub use refusals::{AccessKind, Outcome, Refusal, only_if};
