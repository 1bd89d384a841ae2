// The six rules, of a state on a walk: its number, its word, whether a state before it writes, and
// how the walk leaves it.
#![tactic(auto)]

mod rules;

pub use rules::{Exit, rule1, rule2, rule3, rule4, rule5, rule6, writes};
