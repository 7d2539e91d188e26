// A register over a table of circuit records that stands in the caller's memory.
ghost use Rattle.std.specs.Prelude.{◌≡◌, ◌≤◌, [], length, MatchResult};
ghost use Rattle.network.specs.Network.{Proper};
ghost use Rattle.network.specs.Refusals.{number_of};
ghost use Rattle.network.specs.Table.{table, GoodEnds, GoodFigures, table_proper, Refused, ProperOrRefused, ProperNotRefused, OneTableRefusal};

use super::refusal::{LoadRefusal, Refusal};
use super::register::{Circuit, MOST_CIRCUITS, MOST_PLACES, Register};

// A number of places, and the circuits between them, in the order of their numbers.
#[derive(Drop)]
pub struct TableRegister<'a> {
    places: u16,
    circuits: &'a [Circuit],
    ghost few_places: { places ≤ 128 },
    ghost few_circuits: { length circuits.now ≤ 384 },
    ghost ends: { GoodEnds places circuits.now },
    ghost figures: { GoodFigures circuits.now },
}

impl<'a> TableRegister<'a> {
    // A table of no places and no circuits.
    pub fn empty() -> TableRegister<'a>
        ensures { table result.places result.circuits.now ≡ table 0 [] }
    {
        TableRegister {
            places: 0,
            circuits: &[],
        }
    }

    // Accepted exactly where the table keeps the limits; it then stands in place of what the register held.
    // Refused, it leaves the register as it was.
    pub fn load(&mut self, places: u32, circuits: &'a [Circuit]) -> Result<(), LoadRefusal>
        ensures { MatchResult result (λ _. Proper (table places circuits.now) × (table self.new.places self.new.circuits.now ≡ table places circuits.now)) (λ e. Refused (table places circuits.now) (number_of e.refusal) e.at × (self.new ≡ self.old)) }
    {
        if places > MOST_PLACES as u32 || circuits.len() > MOST_CIRCUITS as usize {
            return Err(LoadRefusal {
                refusal: Refusal::Full,
                at: 0,
            });
        }
        let places = places as u16;
        for (at, circuit) in circuits.iter().enumerate() {
            circuit
                .check(places)
                .map_err(|refusal| LoadRefusal { refusal, at })?;
        }
        *self = TableRegister { places, circuits };
        Ok(())
    }
}

// A table keeps the limits or is refused, and never both; a refusal has one number at one record.
pub fn table_stands()
    ensures total { ProperOrRefused }
    ensures apart { ProperNotRefused }
    ensures refusal { OneTableRefusal }
{}

impl Register for TableRegister<'_> {
    ghost network = { λ r. table r.places r.circuits.now };

    ghost proper = { λ r. table_proper r.places r.circuits.now r.few_places r.few_circuits r.ends r.figures };

    fn places(&self) -> u16 {
        self.places
    }

    fn circuits(&self) -> u16 {
        self.circuits.len() as u16
    }

    fn circuit(&self, number: u32) -> Option<Circuit> {
        self.circuits.get(number as usize).copied()
    }
}
