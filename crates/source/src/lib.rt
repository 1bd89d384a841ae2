// The source of a program: the lines of a text, and what each says.
#![tactic(auto)]

mod bytes;
mod names;
mod parts;
mod reading;
mod reads;
mod statements;

pub use reading::{Heading, Line, line_end, read_heading, read_line};
pub use statements::{Reading, Statement, Unreadable};
