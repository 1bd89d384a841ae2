// A run as a value change dump (IEEE 1364).
#![tactic(auto)]

mod declared;
mod values;
mod waves;

pub use waves::{Sample, changes, closing, opening};
