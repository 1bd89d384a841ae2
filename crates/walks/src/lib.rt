// The walk of an opcode through a store, and the check of all 64.
#![tactic(auto)]

mod breaches;
mod checks;
mod following;

pub use checks::{Surveyed, check, survey};
pub use following::{Walked, walk};
