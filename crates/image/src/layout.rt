// Where the records of an image stand: the places first, then the circuits, then the end.
ghost use Rattle.std.specs.Prelude.{◌≡◌, ℕ, ◌+◌, ◌*◌, ◌^◌, ◌<◌, ◌↔◌, slice_index, drop, IsTrue, MatchResult, MatchOption};
ghost use Rattle.image_format.specs.Image.{Repeats, Refused};
ghost use Rattle.image.specs.Layout.{end_of, names_in, Scanned, Complete, MarkAt, RefusedAfter};
ghost use Rattle.image.specs.Held.{scanned_prop};
ghost use Rattle.network.specs.Refusals.{number_of};

use super::figure::{CIRCUIT_BYTES, after_place, bytes_at, read_circuit, read_name};
use network::{LoadRefusal, MOST_CIRCUITS, MOST_PLACES, Refusal};

// The most bytes that a place's name has.
const LONGEST_NAME: usize = 16;

// How many places and circuits an image has, and the offset of the first circuit.
#[derive(Clone, Copy, Default)]
pub(crate) struct Layout {
    pub places: u16,
    pub circuits: u16,
    pub first: usize,
}

// What a record begins with.
#[derive(Clone, Copy)]
enum Mark {
    Place,
    Circuit,
    End,
}

impl Layout {
    // The offset after the places and circuits.
    pub(crate) fn end(self) -> usize
        requires { end_of self < 2 ^ 64 }
        ensures { result ≡ end_of self }
    {
        self.first + CIRCUIT_BYTES * self.circuits as usize
    }
}

// How far a load has come: the records of the layout are sound, and stand at the front of the image.
// That bytes are below 256 is known of a parameter, and of a field only where it is said.
#[derive(Clone, Copy)]
struct Scan<'a> {
    image: &'a [u8],
    layout: Layout,
    ghost bytes: { (j : ℕ) → slice_index image.now j < 256 },
    ghost so_far: { Scanned image.now layout } by { scanned_prop image.now layout },
}

impl<'a> Scan<'a> {
    // What stands after the records so far.
    fn rest(&self) -> &'a [u8]
        ensures { result.now ≡ drop (end_of self.now.layout) self.now.image.now }
    {
        &self.image[self.layout.end()..]
    }

    // The mark of the next record.
    fn mark(&self) -> Result<Mark, Refusal>
        ensures { MatchResult result
            (MarkAt self.now.image.now (end_of self.now.layout))
            (RefusedAfter self.now.image.now self.now.layout) }
    {
        match self.rest() {
            [b'P', b'L', ..] => Ok(Mark::Place),
            [b'C', b'T', ..] => Ok(Mark::Circuit),
            [b'E', b'N', ..] => Ok(Mark::End),
            [_, _, ..] => Err(Refusal::Mark),
            _ => Err(Refusal::Short),
        }
    }

    // Whether one of the places so far has this name.
    #[tactic(auto, using(crate::proofs::Offsets::within, crate::proofs::Offsets::repeats_when, crate::proofs::Offsets::repeats_where))]
    fn repeats(&self, name: &[u8]) -> bool
        ensures { IsTrue result ↔ Repeats name.now (names_in self.now.image.now self.now.layout.places) }
    {
        let mut next = 0;
        // Loops over places and name bytes, left by a label at the first repeat: a form that the project keeps. The bytes are
        // counted, since over a `zip` the load of a full image took 2.5 times as long.
        'earlier: for _ in 0..self.layout.places {
            let other = read_name(self.image, next);
            next = after_place(self.image, next);
            if other.len() != name.len() {
                continue;
            }
            for k in 0..name.len() {
                if other[k] != name[k] {
                    continue 'earlier;
                }
            }
            return true;
        }
        false
    }

    // The scan one place further, or the first check that the place fails.
    #[tactic(auto, using(crate::proofs::Loading::place_refused))]
    fn place(&self) -> Result<Scan<'a>, Refusal>
        requires { MarkAt self.now.image.now (end_of self.now.layout) Mark.Place }
        ensures { MatchResult result
            (λ s. (s.image ≡ self.now.image) × (end_of self.now.layout < end_of s.layout))
            (RefusedAfter self.now.image.now self.now.layout) }
    {
        let rest = self.rest();
        if self.layout.circuits > 0 {
            return Err(Refusal::Order);
        }
        if self.layout.places >= MOST_PLACES {
            return Err(Refusal::Full);
        }
        let Some(&size) = rest.get(2) else {
            return Err(Refusal::Short);
        };
        let size = size as usize;
        if !(1..=LONGEST_NAME).contains(&size) {
            return Err(Refusal::Name);
        }
        let Some(name) = rest.get(3..3 + size) else {
            return Err(Refusal::Short);
        };
        if self.repeats(name) {
            return Err(Refusal::Name);
        }
        Ok(Scan {
            image: self.image,
            layout: Layout {
                places: self.layout.places + 1,
                circuits: 0,
                first: self.layout.end() + 3 + size,
            },
        })
    }

    // The scan one circuit further, or the first check that the circuit fails.
    #[tactic(auto, using(crate::proofs::Loading::circuit_refused))]
    fn circuit(&self) -> Result<Scan<'a>, Refusal>
        requires { MarkAt self.now.image.now (end_of self.now.layout) Mark.Circuit }
        ensures { MatchResult result
            (λ s. (s.image ≡ self.now.image) × (end_of self.now.layout < end_of s.layout))
            (RefusedAfter self.now.image.now self.now.layout) }
    {
        let rest = self.rest();
        if self.layout.circuits >= MOST_CIRCUITS {
            return Err(Refusal::Full);
        }
        if rest.len() < CIRCUIT_BYTES {
            return Err(Refusal::Short);
        }
        let circuit = read_circuit(rest, 0);
        circuit.check(self.layout.places)?;
        Ok(Scan {
            image: self.image,
            layout: Layout {
                circuits: self.layout.circuits + 1,
                ..self.layout
            },
        })
    }

    // That the end record tells how many records came before it, and that nothing comes after it.
    #[tactic(auto, using(crate::proofs::Loading::end_refused, crate::proofs::Loading::end_taken))]
    fn check_end(&self) -> Result<(), Refusal>
        requires { MarkAt self.now.image.now (end_of self.now.layout) Mark.End }
        ensures { MatchResult result
            (λ _. Complete self.now.image.now self.now.layout)
            (RefusedAfter self.now.image.now self.now.layout) }
    {
        let rest = self.rest();
        if rest.len() < 4 {
            return Err(Refusal::Short);
        }
        let count = u16::from_be_bytes(bytes_at(rest, 2));
        if count != self.layout.places + self.layout.circuits || rest.len() != 4 {
            return Err(Refusal::Tail);
        }
        Ok(())
    }

    // The scan one record further, nothing at a sound end, or the first check that the record fails.
    fn step(&self) -> Result<Option<Scan<'a>>, Refusal>
        ensures { MatchResult result
            (λ next. MatchOption next (Complete self.now.image.now self.now.layout)
            (λ s. (s.image ≡ self.now.image) × (end_of self.now.layout < end_of s.layout)))
            (RefusedAfter self.now.image.now self.now.layout) }
    {
        match self.mark()? {
            Mark::Place => Ok(Some(self.place()?)),
            Mark::Circuit => Ok(Some(self.circuit()?)),
            Mark::End => {
                self.check_end()?;
                Ok(None)
            }
        }
    }
}

// The layout of an image, or what is wrong with the first record that fails.
pub(crate) fn read_layout(image: &[u8]) -> Result<Layout, LoadRefusal>
    ensures { MatchResult result
        (Complete image.now)
        (λ e. Refused image.now (number_of e.refusal) e.at) }
{
    let mut scan = Scan {
        image,
        layout: Layout::default(),
    };
    loop {
        match scan.step() {
            Ok(Some(next)) => scan = next,
            Ok(None) => return Ok(scan.layout),
            Err(refusal) => {
                return Err(LoadRefusal {
                    refusal,
                    at: scan.layout.end(),
                });
            }
        }
    }
}
