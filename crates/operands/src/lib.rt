// What a part of a line says where it is asked for as an operand: a register, an offset, a word, a
// mark or a label.
#![tactic(auto)]

mod labels;
mod numbers;
mod operands;

pub use labels::{Label, read_label};
pub use operands::{Shape, shaped};
