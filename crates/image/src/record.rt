// The records of an image, one after the other.
ghost use Rattle.std.specs.Prelude.{◌≡◌, ◌+◌, ◌-◌};
ghost use Rattle.image.specs.Reading.{Next, Gives};
ghost use Rattle.std.specs.Iterator.{at_most};

use super::figure::{after_place, bytes_at, read_name};
use super::register::ImageRegister;
use network::{Circuit, Register};

// One record. The name of a place is lent from where it stands in the image.
#[derive(Clone, Copy)]
pub enum Record<'a> {
    Place { name: &'a [u8] },
    Circuit(Circuit),
    End { count: u16 },
}

// Gives the records of a register's image in turn: how many it has given, and where the next place begins.
#[derive(Drop)]
pub struct Records<'a> {
    register: ImageRegister<'a>,
    given: u16,
    at: usize,
    ghost next: { Next register.image.now register.layout given at },
}

impl<'a> Records<'a> {
    // A reader that has given nothing yet.
    pub(crate) fn new(register: ImageRegister<'a>) -> Records<'a>
        ensures { (result.register ≡ register.entry) × (result.given ≡ 0) }
    {
        Records {
            register,
            given: 0,
            at: 0,
        }
    }
}

impl<'a> Iterator for Records<'a> {
    ghost use Rattle.image.specs.Left.{left};

    type Item = Record<'a>;

    // It gives the records that are left, in their order, and stays over the same register.
    ghost next_gives = { λ s r t. (t.register ≡ s.register) × Gives (left s) r (left t) };

    ghost remaining = { λ s. at_most (s.register.layout.places + s.register.layout.circuits + 1 - s.given) };

    // It counts by hand, since it goes through three kinds of records and an image has no list of any.
    #[tactic(auto, using(crate::proofs::Offsets::within, crate::specs::Held::circuit_count, crate::proofs::Telling::telling))]
    fn next(&mut self) -> Option<Record<'a>> {
        let ImageRegister { image, layout } = self.register;
        let number = self.given;
        if number < layout.places {
            let name = read_name(image, self.at);
            self.at = after_place(image, self.at);
            self.given = number + 1;
            Some(Record::Place { name })
        } else if let Some(circuit) = self.register.circuit((number - layout.places) as u32) {
            self.given = number + 1;
            Some(Record::Circuit(circuit))
        } else if number == layout.places + layout.circuits {
            let count = u16::from_be_bytes(bytes_at(image, layout.end() + 2));
            self.given = number + 1;
            Some(Record::End { count })
        } else {
            None
        }
    }
}
