// The single words of an order: numbers, places, modes, limits and verbs, and what is wrong with one.
#![tactic(auto)]

mod faults;
mod figures;
mod limit;
mod verbs;

pub use faults::{Fault, Part};
pub use figures::{mode, numeral, place};
pub use limit::{Form, Limit, OneNumber};
pub use verbs::Verb;
