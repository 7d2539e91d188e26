// The text of an order: what a line of bytes says, and the reading of it.
#![tactic(auto)]

mod forms;
mod reading;
mod statement;

pub use reading::{line_means_one, lines_split, read};
pub use statement::Statement;
