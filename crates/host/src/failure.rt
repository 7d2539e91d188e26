// Why a call brings no pair, and the number that C gets for it.
ghost use Rattle.std.specs.Prelude.{◌≡◌};
ghost use Rattle.host.specs.declared.failure.Failure.TheVariants.{Refused, NoMemory};
ghost use Rattle.host.specs.Status.{failure_number};

use network::{LoadRefusal, Refusal};
use std::alloc::AllocError;

#[derive(Clone, Copy, PartialEq, Eq, Debug)]
pub enum Failure {
    Refused(Refusal),
    // there is no memory for the book
    NoMemory,
}

// What C gets where there is no memory. No refusal has this number.
const NO_MEMORY: u32 = 255;

impl Failure {
    pub fn number(self) -> u32
        ensures { result ≡ failure_number self }
    {
        match self {
            Failure::Refused(refusal) => u32::from(refusal.number()),
            Failure::NoMemory => NO_MEMORY,
        }
    }
}

impl From<Refusal> for Failure {
    ghost from_gives = { λ refusal f. f ≡ Refused refusal };

    fn from(refusal: Refusal) -> Failure {
        Failure::Refused(refusal)
    }
}

impl From<LoadRefusal> for Failure {
    ghost from_gives = { λ fault f. f ≡ Refused fault.refusal };

    fn from(fault: LoadRefusal) -> Failure {
        Failure::Refused(fault.refusal)
    }
}

impl From<AllocError> for Failure {
    ghost from_gives = { λ _ f. f ≡ NoMemory };

    fn from(_e: AllocError) -> Failure {
        Failure::NoMemory
    }
}
