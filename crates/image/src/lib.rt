// The register that reads its network in an image, and the records of the image in turn.
#![tactic(auto)]

mod figure;
mod layout;
mod record;
mod register;

pub use record::{Record, Records};
pub use register::ImageRegister;
