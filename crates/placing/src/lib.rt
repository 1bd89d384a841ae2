// A statement at its address: the word that stands for it, or why there is none.
#![tactic(auto)]

mod meanings;
mod placed;

pub use placed::{Fault, fault_number, name_in, place};
