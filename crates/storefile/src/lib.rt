// A store's file: 197 bytes, read and written.
#![tactic(auto)]

mod file;

pub use file::{read_file, write_file};
