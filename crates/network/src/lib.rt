// What a network is, the registers that hold one, and the numbers by which an order is refused.
#![tactic(auto)]

mod circuits;
mod refusal;
mod register;
mod route;
mod table;

pub use circuits::Circuits;
pub use refusal::{LoadRefusal, Refusal};
pub use register::{Circuit, MOST_BANDWIDTH, MOST_CIRCUITS, MOST_COST, MOST_PLACES, Register};
pub use route::{main_route, round_is_no_route};
pub use table::{TableRegister, table_stands};
