// A register of circuits: what it means, and what it tells.
ghost use Rattle.std.specs.Prelude.{◌≡◌, ◌<◌, ◌≤◌, length, MatchOption, MatchResult, IsTrue, ◌↔◌};
ghost use Rattle.network.specs.Network.{Network, BadEnds, BadFigures, Proper, Sound, circuit as circuit_of};
ghost use Rattle.network.specs.Checks.{First};
ghost use Rattle.network.specs.Refusals.{number_of};
ghost use Rattle.network.specs.Table.{circuit_checks};

use super::refusal::Refusal;

// What a register holds at most, in places and in circuits.
pub const MOST_PLACES: u16 = 128;

pub const MOST_CIRCUITS: u16 = 384;

// The largest figures of a circuit.
pub const MOST_BANDWIDTH: u32 = 64_000_000;

pub const MOST_COST: u32 = 1_000_000;

// A circuit leads from one place to another, in that direction only. Bandwidth is in kbit/s.
#[derive(Clone, Copy, PartialEq, Eq, Debug)]
pub struct Circuit {
    pub from: u16,
    pub to: u16,
    pub bandwidth: u32,
    pub cost: u32,
}

impl Circuit {
    pub const fn new(from: u16, to: u16, bandwidth: u32, cost: u32) -> Circuit
        ensures { result ≡ record { from = from; to = to; bandwidth = bandwidth; cost = cost } }
    {
        Circuit {
            from,
            to,
            bandwidth,
            cost,
        }
    }

    // Whether an end is no place, or both ends are equal.
    pub fn bad_ends(self, places: u16) -> bool
        ensures { IsTrue result ↔ BadEnds places self }
    {
        self.from >= places || self.to >= places || self.from == self.to
    }

    // Whether bandwidth or cost is out of its bounds.
    pub fn bad_figures(self) -> bool
        ensures { IsTrue result ↔ BadFigures self }
    {
        self.bandwidth < 1 || self.bandwidth > MOST_BANDWIDTH || self.cost > MOST_COST
    }

    // What every register checks of a circuit among that many places: its ends, then its figures.
    pub fn check(self, places: u16) -> Result<(), Refusal>
        ensures { MatchResult result (λ _. Sound places self) (λ e. First (number_of e) (circuit_checks places self)) }
    {
        if self.bad_ends(places) {
            return Err(Refusal::Ends);
        }
        if self.bad_figures() {
            return Err(Refusal::Figure);
        }
        Ok(())
    }
}

// What it tells is exactly its network, and telling changes nothing.
pub trait Register {
    // The network that this register stands for.
    ghost network: { Self → Network };

    // The proof that every register of this type keeps the limits.
    ghost proper: { (x : Self) → Proper (network x) };

    fn places(&self) -> u16
        ensures { result ≡ (network self.now).places };

    fn circuits(&self) -> u16
        ensures { result ≡ length (network self.now).circuits };

    // The figures of a circuit, or nothing where there is none of that number.
    fn circuit(&self, number: u32) -> Option<Circuit>
        ensures { MatchOption result (length (network self.now).circuits ≤ number) (λ c. (number < length (network self.now).circuits) × (c ≡ circuit_of (network self.now) number)) };
}
