// The safest pair at a rate.
ghost use Rattle.std.specs.Prelude.{◌≡◌, [], ◌∷◌};
ghost use Rattle.scale.specs.Measure.{shared_cost};
ghost use Rattle.tables.specs.Standing.{Keeps, route_of, ledger_of};
ghost use Rattle.plan.specs.Arcs.{FoundAt};
ghost use Rattle.plan.specs.Planned.{SafestAt};

use crate::question::Question;
use network::{Circuits, Register};
use scale::Scale;
use tables::{MAX_ROUTE, Route, marks};

// Two routes, and the cost of what they share.
#[derive(Clone, Copy)]
pub struct Plan<V> {
    pub first: Route,
    pub second: Route,
    pub cost: V,
}

impl<'a, R: Register> Question<'a, R> {
    // Two routes that share only what every route at that rate needs. None: no two can be had.
    fn pair_at(&self, rate: u32) -> Option<(Route, Route)>
        ensures { Keeps (R.network self.now.register.now) self.now.tables.now → FoundAt (R.network self.now.register.now) (ledger_of self.now.tables.now) self.now.from self.now.to self.now.mode rate result }
    {
        let arcs = self.arcs(rate);
        let arcs = &arcs[0..self.register.circuits() as usize];
        // Room for the longest routes, as a feed keeps them: no call on a book may want memory.
        let mut first = [0; MAX_ROUTE];
        let mut second = [0; MAX_ROUTE];
        let (n, m) = search::pair(
            arcs,
            self.register.places() as usize,
            self.from as usize,
            self.to as usize,
            &mut first,
            &mut second,
        )?;
        let first = Route {
            length: n,
            circuits: first,
        };
        let second = Route {
            length: m,
            circuits: second,
        };
        Some((first, second))
    }

    // The cost of the circuits that both routes use.
    fn shared_cost<S: Scale>(&self, first: &Route, second: &Route) -> S::Value
        ensures { result ≡ shared_cost S.measure (R.network self.now.register.now) (route_of first.now ∷ route_of second.now ∷ []) }
    {
        let in_first = marks(first);
        let in_second = marks(second);
        let mut cost = S::zero();
        // By number: three zipped lists would read no plainer.
        for (c, circuit) in Circuits::of(self.register).enumerate() {
            let shared = in_first[c] & in_second[c];
            if shared {
                cost = S::join(cost, S::weight(circuit.cost));
            }
        }
        cost
    }

    // A pair that shares as little as any set of routes that can carry the rate. None: no set can.
    pub fn safest_at<S: Scale>(&self, rate: u32) -> Option<Plan<S::Value>>
        ensures { Keeps (R.network self.now.register.now) self.now.tables.now → SafestAt S.measure (R.network self.now.register.now) (ledger_of self.now.tables.now) self.now.from self.now.to self.now.mode rate result }
    {
        let (first, second) = self.pair_at(rate)?;
        let cost = self.shared_cost::<S>(&first, &second);
        Some(Plan {
            first,
            second,
            cost,
        })
    }
}
