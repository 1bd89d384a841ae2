// The assembler: from the lines of a text to words.
#![tactic(auto)]

mod answers;
mod assembling;
mod filled;
mod lines;
mod table;
mod translating;

pub use answers::{AssemblyError, LineNumber, refusal_number, refused_line};
pub use assembling::assemble;
