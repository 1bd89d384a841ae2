// A sheet: the text of a program for a 64-word image, a line a word.
#![tactic(auto)]

mod digits;
mod lines;
mod parsing;

pub use parsing::parse;
