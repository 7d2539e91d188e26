// What a book keeps: the bandwidth left on each circuit, the standing feeds, and the standing notices.
#![tactic(auto)]

mod bandwidth;
mod ledger;
mod making;
mod numbered;
mod route;
mod rows;
mod tables;

pub use numbered::{Numbered, find};
pub use route::marks;
pub use rows::{CircuitState, Feed, MAX_CIRCUITS, MAX_ROUTE, MAX_STANDING, Notice, Route, Tables};
