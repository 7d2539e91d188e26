// The route book: it chooses two routes for a feed that share as little as the network allows, books them and gives them
// back.
#![tactic(auto)]

mod answer;
mod book;
mod checks;
mod writing;

pub use answer::Pair;
pub use book::Book;
