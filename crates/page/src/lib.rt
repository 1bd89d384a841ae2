// A page of text in a buffer: its bytes, and the place at which the next one goes.
#![tactic(auto)]

mod marks;
mod numbers;

pub use marks::Page;
