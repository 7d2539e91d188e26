// The circuits of a register in turn, so that a reader of all circuits counts none by hand.
ghost use Rattle.std.specs.Prelude.{◌≡◌, ◌≤◌, length, drop};
ghost use Rattle.std.specs.Iterator.{YieldsFirst, item_count};

use super::register::{Circuit, Register};
use std::ops::Range;

// Gives the circuits in the order of their numbers: those of `left` are still to come.
#[derive(Drop)]
pub struct Circuits<'a, R: Register> {
    register: &'a R,
    left: Range<u16>,
    ghost all: { left.end ≡ length (R.network register.now).circuits },
    ghost some: { left.start ≤ left.end },
}

impl<'a, R: Register> Circuits<'a, R> {
    // All circuits of the register.
    pub fn of(register: &'a R) -> Circuits<'a, R>
        ensures of { result.register ≡ register.entry }
        ensures all { drop result.left.start (R.network result.register.now).circuits ≡ (R.network register.now).circuits }
    {
        Circuits {
            register,
            left: 0..register.circuits(),
        }
    }
}

impl<'a, R: Register> Iterator for Circuits<'a, R> {
    type Item = Circuit;

    ghost next_gives = { YieldsFirst (λ s. drop s.left.start (R.network s.register.now).circuits) };

    ghost remaining = { item_count (λ s. drop s.left.start (R.network s.register.now).circuits) };

    fn next(&mut self) -> Option<Circuit> {
        let number = self.left.next()?;
        self.register.circuit(u32::from(number))
    }
}
