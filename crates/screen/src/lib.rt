// What `watch` shows of a run, as text on a page: the table, a row a cycle, and at each return to
// fetch the single-cycle machine beside.
#![tactic(auto)]

mod rows;
mod sides;

pub use rows::{Cycle, head, refused, row, totals};
pub use sides::{Seen, Side, beside};
