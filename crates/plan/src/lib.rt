// Two routes for a feed, by what the tables leave: the safest pair at a rate, and the widest within a limit.
#![tactic(auto)]

mod arcs;
mod plan;
mod question;
mod widest;

pub use plan::Plan;
pub use question::Question;
pub use widest::MAX_RATE;
