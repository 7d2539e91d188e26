// Circuits as arcs with lanes: how many of two routes may use each at a rate.
ghost use Rattle.std.specs.Prelude.{◌≡◌, ℕ, ◌<◌, ◌≤◌, true, false, length, take};
ghost use Rattle.network.specs.Network.{Network, circuit as circuit_of};
ghost use Rattle.search.specs.Graph.{Proper};
ghost use Rattle.promise.specs.Ledger.{Ledger, Open, left as left_on};
ghost use Rattle.promise.specs.Lanes.{Lane, Lanes};
ghost use Rattle.tables.specs.Standing.{Keeps, ledger_of};
ghost use Rattle.plan.specs.Arcs.{ArcFor};

use crate::question::Question;
use network::{Circuit, Circuits, Register};
use promise::Mode;
use search::{Arc, MAX_ARCS};

// How many of two routes at that rate may use a circuit with so much left.
pub fn lanes_of(mode: Mode, rate: u32, left: u32, closed: bool) -> u8
    ensures few { result ≤ 2 }
    ensures lane { (n : Network) (l : Ledger) (c : ℕ) → left ≡ left_on n l c → (closed ≡ false → Open l c) → (closed ≡ true → ¬ Open l c) → Lane n l mode rate c result }
{
    if closed || left < rate {
        return 0;
    }
    match mode {
        Mode::OnePlusOne => { if left - rate < rate { 1 } else { 2 } }
        Mode::OneToOne => 2,
    }
}

impl<'a, R: Register> Question<'a, R> {
    // The arc of a circuit.
    fn arc_of(&self, number: usize, circuit: Circuit, closed: bool, rate: u32) -> Arc
        requires within { number < length (R.network self.now.register.now).circuits }
        requires circuit { circuit ≡ circuit_of (R.network self.now.register.now) number }
        requires free { closed ≡ false → Open (ledger_of self.now.tables.now) number }
        requires shut { closed ≡ true → ¬ Open (ledger_of self.now.tables.now) number }
        ensures { ArcFor (R.network self.now.register.now) self.now.tables.now self.now.mode rate number result }
    {
        let left = self.tables.left(number as u32).unwrap_or(0);
        Arc {
            from: circuit.from,
            to: circuit.to,
            lanes: lanes_of(self.mode, rate, left, closed),
        }
    }

    // An arc for each circuit, by its number; what stands past them means nothing.
    pub fn arcs(&self, rate: u32) -> [Arc; MAX_ARCS]
        ensures proper { Proper (take (length (R.network self.now.register.now).circuits) result) (R.network self.now.register.now).places }
        ensures lanes { Keeps (R.network self.now.register.now) self.now.tables.now → Lanes (R.network self.now.register.now) (ledger_of self.now.tables.now) self.now.mode rate (take (length (R.network self.now.register.now).circuits) result) }
    {
        let closed = self.tables.closed();
        let mut arcs = [Arc {
            from: 0,
            to: 0,
            lanes: 0,
        }; MAX_ARCS];
        // By number: three zipped lists would read no plainer. An array and a count, since no call may want memory.
        for (c, circuit) in Circuits::of(self.register).enumerate() {
            arcs[c] = self.arc_of(c, circuit, closed[c], rate);
        }
        arcs
    }
}
