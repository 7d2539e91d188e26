// The circuits of a route, and which it uses.
ghost use Rattle.std.specs.Prelude.{◌≡◌, ℕ, ◌<◌, ◌==◌, ◌||◌, false, slice_index_or};
ghost use Rattle.network.specs.Routes.{uses};
ghost use Rattle.tables.specs.Standing.{route_of};

use crate::rows::{MAX_CIRCUITS, Route};

impl Route {
    pub fn as_slice(&self) -> &[u16]
        ensures { result.now ≡ route_of self.now }
    {
        &self.circuits[..self.length]
    }

    pub fn uses(&self, circuit: u32) -> bool
        ensures { result ≡ uses circuit (route_of self.now) }
    {
        self.as_slice().iter().any(|c| circuit == u32::from(*c))
    }
}

// Marks a circuit. No circuit has a number past the marks, so none is marked for it.
pub fn mark(marks: &mut [bool; MAX_CIRCUITS], circuit: usize)
    ensures { (c : ℕ) → c < 384 → slice_index_or marks.new c false ≡ (slice_index_or marks.old c false || c == circuit) }
{
    if circuit < MAX_CIRCUITS {
        marks[circuit] = true;
    }
}

// Which circuits a route uses.
pub fn marks(route: &Route) -> [bool; MAX_CIRCUITS]
    ensures { (c : ℕ) → c < 384 → slice_index_or result c false ≡ uses c (route_of route.now) }
{
    let mut marks = [false; MAX_CIRCUITS];
    for circuit in route.as_slice() {
        mark(&mut marks, usize::from(*circuit));
    }
    marks
}
