// The calls on a book as values: an order, and what came of it.
#![tactic(auto)]

mod answer;
mod order;

pub use answer::{Answer, Reply};
pub use order::{Ask, Order};
