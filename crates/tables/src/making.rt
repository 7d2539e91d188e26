// The tables of a new book: every circuit whole, and nothing standing.
ghost use Rattle.std.specs.Prelude.{◌≡◌, map, IfOk};
ghost use Rattle.promise.specs.Ledger.{nothing_yet};
ghost use Rattle.tables.specs.Standing.{Keeps, ledger_of};

use crate::rows::{CircuitState, MAX_STANDING, Tables};
use network::{Circuits, Register};
use std::alloc::{AllocError, Global};

// Each circuit with all of its bandwidth left.
fn whole_circuits<R: Register>(heap: Global, register: &R) -> Result<Vec<CircuitState>, AllocError>
    ensures { IfOk result (λ v. v.items ≡ map (λ c. record { left = c.bandwidth }) (R.network register.now).circuits) }
{
    let mut whole = Vec::with_capacity(heap, usize::from(register.circuits()))?;
    for circuit in Circuits::of(register) {
        whole.push(CircuitState {
            left: circuit.bandwidth,
        })?;
    }
    Ok(whole)
}

impl Tables {
    // Only this wants memory: it reserves room for all that may stand.
    pub fn new<R: Register>(heap: Global, register: &R) -> Result<Tables, AllocError>
        ensures { IfOk result (λ t. Keeps (R.network register.now) t × (ledger_of t ≡ nothing_yet)) }
    {
        let circuits = whole_circuits(heap, register)?;
        let feeds = Vec::with_capacity(heap, MAX_STANDING)?;
        let notices = Vec::with_capacity(heap, MAX_STANDING)?;
        Ok(Tables {
            circuits,
            feeds,
            notices,
        })
    }
}
