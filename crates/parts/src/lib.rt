// What both machines are built of: the register file, the ALU, the image and its loader, and what
// every run asks first.
#![tactic(auto)]

pub mod alu;
pub mod image;
mod loader;
mod ready;
pub mod registers;

pub use loader::load;
pub use ready::may_run;
