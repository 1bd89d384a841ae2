// A control store: its words and dispatch ROMs with their ranges, what it gives in a state for an
// opcode, and the fixed store as a value.
#![tactic(auto)]

mod fixed;
mod sequencing;
mod stores;

pub use fixed::fixed_store;
pub use sequencing::{entry_of, gives};
pub use stores::{Store, in_range};
