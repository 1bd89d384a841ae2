// Instruction words: their fields, the two targets, and the nine instructions decoded and encoded.
#![tactic(auto)]

mod decoding;
mod encoding;
pub mod fields;
mod instructions;
mod kinds;
mod targets;

pub use decoding::decode;
pub use encoding::encode;
pub use instructions::Instruction;
pub use kinds::{Kind, kind_of};
pub use targets::{branch_target, jump_target, next_address, upper_and};
