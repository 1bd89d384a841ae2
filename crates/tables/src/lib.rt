// The state table, the ROM and the PLA: what each has in a state for an opcode.
#![tactic(auto)]

mod outputs;
mod planes;
mod rom;

pub use outputs::{from_entry, tabled};
pub use planes::pla;
pub use rom::{entry_at, rom_table};
