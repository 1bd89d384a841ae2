// The control of the multicycle machine: the four units, what each gives, and the one loop that
// runs the machine under any of them or under a store.
#![tactic(auto)]

mod outputs;
mod running;
mod runs;
mod units;

pub use outputs::gives;
pub use running::MachineRun;
pub use runs::{run, run_store};
pub use units::Unit;
