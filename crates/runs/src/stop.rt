// Why an order has no reply.
ghost use Rattle.std.specs.Prelude.{◌≡◌};
ghost use Rattle.runs.specs.declared.stop.Stop.TheVariants as stop;

use network::Refusal;
use std::alloc::AllocError;

#[derive(Drop)]
pub enum Stop {
    Refused(Refusal),
    NoMemory(AllocError),
}

impl From<Refusal> for Stop {
    ghost from_gives = { λ refusal s. s ≡ stop.Refused refusal };

    fn from(refusal: Refusal) -> Stop {
        Stop::Refused(refusal)
    }
}

impl From<AllocError> for Stop {
    ghost from_gives = { λ error s. s ≡ stop.NoMemory error };

    fn from(error: AllocError) -> Stop {
        Stop::NoMemory(error)
    }
}
