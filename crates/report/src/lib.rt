// What the planner prints: answers as lines of text, the last pair by place names, and the register as a drawing.
#![tactic(auto)]

mod draw;
mod show;

pub use draw::{Chart, Last};
pub use show::{Printed, write_answer};
