// A register that reads its network in an image that is lent to it: it keeps no copy.
ghost use Rattle.std.specs.Prelude.{◌≡◌, ℕ, ◌≤◌, List, [], IsOk, MatchOption, MatchResult};
ghost use Rattle.image.specs.Held.{Held, Loaded, Named, proper_held};
ghost use Rattle.image_format.specs.Image.{Image, Refused};
ghost use Rattle.image.specs.Layout.{network_in};
ghost use Rattle.image.specs.Reading.{Tells};
ghost use Rattle.network.specs.Refusals.{number_of};

use super::figure::{CIRCUIT_BYTES, after_place, read_circuit, read_name};
use super::layout::{Layout, read_layout};
use super::record::Records;
use network::{Circuit, LoadRefusal, Register};

#[derive(Clone, Copy)]
pub struct ImageRegister<'a> {
    pub(crate) image: &'a [u8],
    pub(crate) layout: Layout,
    ghost held: { Held image.now layout },
}

// The image of no places and no circuits: an end record alone.
static NOTHING: [u8; 4] = *b"EN\x00\x00";

impl<'a> ImageRegister<'a> {
    ghost use Rattle.image.specs.Left.{left};

    // A register of no places.
    pub fn empty() -> ImageRegister<'a>
        ensures { network_in result.image.now result.layout ≡ record { places = 0; circuits = [] } }
    {
        ImageRegister {
            image: &NOTHING,
            layout: Layout::default(),
        }
    }

    // Replaces what it held by what the image holds, or is refused and stays as it was.
    #[tactic(auto, using(crate::proofs::Holding::complete_loaded, image_format::proofs::Readings::refused_no_image))]
    pub fn load(&mut self, image: &'a [u8]) -> Result<(), LoadRefusal>
        ensures outcome { MatchResult result
            (λ _. (self.new.image ≡ image.entry) × Loaded image.now (network_in self.new.image.now self.new.layout))
            (λ e. (self.new ≡ self.old) × Refused image.now (number_of e.refusal) e.at) }
        ensures accepts { (names : List (List ℕ)) (circuits : List Circuit) → Image image.now names circuits → IsOk result }
    {
        let layout = read_layout(image)?;
        *self = ImageRegister { image, layout };
        Ok(())
    }

    // The name of a place, lent from where it stands in the image, or nothing where there is no place of that number.
    #[tactic(auto, using(crate::proofs::Offsets::within, crate::proofs::Holding::held_named))]
    pub fn name(&self, number: u16) -> Option<&'a [u8]>
        ensures { MatchOption result
            ((network_in self.now.image.now self.now.layout).places ≤ number)
            (λ name. Named self.now.image.now number name.now) }
    {
        if number >= self.layout.places {
            return None;
        }
        let mut at = 0;
        for _ in 0..number {
            at = after_place(self.image, at);
        }
        Some(read_name(self.image, at))
    }

    // The records of the image in turn: the places, the circuits, and last the end.
    #[tactic(auto, using(crate::proofs::Telling::all_left))]
    pub fn records(&self) -> Records<'a>
        ensures lent { result.register ≡ self.now }
        ensures all { Tells self.now.image.now (left result) }
    {
        Records::new(*self)
    }
}

impl Register for ImageRegister<'_> {
    ghost network = { λ r. network_in r.image.now r.layout };

    ghost proper = { λ r. proper_held r.image.now r.layout r.held };

    fn places(&self) -> u16 {
        self.layout.places
    }

    #[tactic(auto, using(crate::specs::Held::circuit_count))]
    fn circuits(&self) -> u16 {
        self.layout.circuits
    }

    #[tactic(auto, using(crate::specs::Held::circuit_count, crate::proofs::Holding::circuit_read))]
    fn circuit(&self, number: u32) -> Option<Circuit> {
        if number >= self.layout.circuits as u32 {
            return None;
        }
        let at = self.layout.first + CIRCUIT_BYTES * number as usize;
        Some(read_circuit(self.image, at))
    }
}
