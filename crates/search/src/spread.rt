// The places that a search has seen, and how it spreads from them.
ghost use Rattle.std.specs.Prelude.{◌≡◌, ℕ, ◌+◌, ◌<◌, ◌≤◌, MatchOption, nat_lt, slice_index};
ghost use Rattle.search.specs.Graph.{Refused};
ghost use Rattle.search.specs.Flows.{Carries, Sound};
ghost use Rattle.search.specs.Trees.{Free, Never, Reached, Roll};

use crate::graph::{By, Graph};
use crate::{Ends, MAX_ARCS, MAX_PLACES};

// The lanes of an arc that both routes may use.
const BOTH: u8 = 2;

// The places seen so far stand in `order`, the first `count` entries. The rank of a place is where it stands there, from 1
// on; the rank 0 says that it was not seen: a number, not an `Option`, since ranks are compared with the count. `via` has the
// arc by which it was seen. Arrays and a count, since no call may want memory; an `ArrayVec` of the order would hold the same
// array and count, and `roll` would have to say its length again.
#[derive(Drop)]
pub(crate) struct Seen {
    count: usize,
    pub(crate) rank: [u8; MAX_PLACES],
    pub(crate) via: [u16; MAX_PLACES],
    order: [u8; MAX_PLACES],
    ghost roll: { Roll count rank via order },
}

impl Seen {
    ghost use Rattle.search.specs.Rolls.{IsSeen, Noted, More, Unused, SpentForth, SpentBack, Passed, Leaves, OfFirst};

    fn new(root: usize) -> Seen
        requires { root < 128 }
        ensures count { result.count ≡ 1 }
        ensures root { IsSeen result root }
        ensures only { (p : ℕ) → IsSeen result p → p ≡ root }
    {
        let mut rank = [0; MAX_PLACES];
        let mut order = [0; MAX_PLACES];
        rank[root] = 1;
        order[0] = root as u8;
        Seen {
            count: 1,
            rank,
            via: [0; MAX_PLACES],
            order,
        }
    }

    // Whether a place was seen.
    fn has(&self, place: usize) -> bool
        requires { place < 128 }
        ensures { result ≡ nat_lt 0 (slice_index self.now.rank place) }
    {
        self.rank[place] > 0
    }

    // Notes a place as seen by an arc, unless it was seen before.
    fn see(&mut self, place: usize, c: usize)
        requires place { place < 128 }
        requires arc { c < 384 }
        ensures { Noted self.old self.new place c }
    {
        if !self.has(place) {
            self.order[self.count] = place as u8;
            self.count += 1;
            self.rank[place] = self.count as u8;
            self.via[place] = c as u16;
        }
    }

    // Sees the places to which usable arcs that carry nothing lead from a seen place.
    fn go_forth(&mut self, graph: &Graph<'_>, flow: &[u8; MAX_ARCS], place: usize)
        requires { IsSeen self.old place }
        ensures more { More graph.now.arcs.now flow.now (Unused graph.now.arcs.now flow.now) self.old self.new }
        ensures spent { SpentForth graph.now.arcs.now flow.now self.new place }
    {
        for (c, arc) in graph.at(By::Start, place) {
            if arc.lanes > 0 && flow[c] == 0 {
                self.see(arc.to as usize, c);
            }
        }
    }

    // Sees the places from which arcs bring something to a seen place. One method for this and `go_forth` would be handed the
    // arcs, the test and the end, which is all that they are.
    fn go_back(&mut self, graph: &Graph<'_>, flow: &[u8; MAX_ARCS], place: usize)
        requires { IsSeen self.old place }
        ensures more { More graph.now.arcs.now flow.now Never self.old self.new }
        ensures spent { SpentBack graph.now.arcs.now flow.now self.new place }
    {
        for (c, arc) in graph.at(By::End, place) {
            if flow[c] > 0 {
                self.see(arc.from as usize, c);
            }
        }
    }

    // Sees all that can be reached from one place by an arc that carries nothing, or back by one that carries something.
    fn scan(&mut self, graph: &Graph<'_>, flow: &[u8; MAX_ARCS], place: usize)
        requires { IsSeen self.old place }
        ensures more { More graph.now.arcs.now flow.now (Unused graph.now.arcs.now flow.now) self.old self.new }
        ensures forth { SpentForth graph.now.arcs.now flow.now self.new place }
        ensures back { SpentBack graph.now.arcs.now flow.now self.new place }
    {
        self.go_forth(graph, flow, place);
        self.go_back(graph, flow, place);
    }

    // The first usable arc from a seen place to one that is not seen.
    fn leaving_arc(&self, graph: &Graph<'_>, place: usize) -> Option<usize>
        requires { IsSeen self.now place }
        ensures { MatchOption result (Passed graph.now.arcs.now self.now place) (λ c. Leaves graph.now.arcs.now self.now c) }
    {
        let (c, _) = graph
            .at(By::Start, place)
            .find(|(_, arc)| arc.lanes > 0 && !self.has(arc.to as usize))?;
        Some(c)
    }

    // The first usable arc to a place that is not seen, and where in `order` it starts, from `held` on.
    fn gate(&self, graph: &Graph<'_>, held: usize) -> Option<(usize, usize)>
        requires held { held ≤ self.now.count }
        requires passed { OfFirst held self.now (Passed graph.now.arcs.now self.now) }
        ensures { MatchOption result ((c : ℕ) → ¬ (Leaves graph.now.arcs.now self.now c)) (λ x. (x.0 < self.now.count) × (OfFirst x.0 self.now (Passed graph.now.arcs.now self.now)) × (Leaves graph.now.arcs.now self.now x.1)) }
    {
        for (i, place) in self.order[held..self.count].iter().enumerate() {
            if let Some(c) = self.leaving_arc(graph, *place as usize) {
                return Some((held + i, c));
            }
        }
        None
    }
}

impl<'a> Graph<'a> {
    // Looks for a way from `from` to `to` by which one unit more can go: first all that arcs without flow lead to, or arcs
    // with flow lead back to; where that is all, on through the gate, an arc that every route needs. None: there are no two
    // routes.
    pub(crate) fn explore(&self, flow: &[u8; MAX_ARCS], ends: Ends) -> Option<Seen>
        requires sound { (k : ℕ) × (k ≤ 1) × Sound self.now.arcs.now flow.now k ends.from ends.to }
        ensures { MatchOption result (Refused self.now.arcs.now ends.from ends.to) (λ s. Reached self.now.arcs.now flow.now (Free self.now.arcs.now flow.now ends.from ends.to) ends.from ends.to s.rank s.via) }
    {
        let mut seen = Seen::new(ends.from);
        // Of the places in `order`, how many were scanned, and how many have no gate any more. The order grows while it is
        // read, and is read at both, so no iterator goes over it.
        let mut done = 0;
        let mut held = 0;
        while !seen.has(ends.to) {
            if done < seen.count {
                let place = seen.order[done] as usize;
                seen.scan(self, flow, place);
                done += 1;
            } else {
                let (start, c) = seen.gate(self, held)?;
                let arc = self.arcs[c];
                if arc.lanes < BOTH {
                    return None;
                }
                seen.see(arc.to as usize, c);
                held = start;
            }
        }
        Some(seen)
    }

    // Finds the places from which the flow comes to `to`, as far back as `from`.
    pub(crate) fn gather(&self, flow: &[u8; MAX_ARCS], ends: Ends) -> Seen
        requires carries { (k : ℕ) × Carries self.now.arcs.now flow.now (k + 1) ends.from ends.to }
        ensures { Reached self.now.arcs.now flow.now Never ends.to ends.from result.rank result.via }
    {
        let mut seen = Seen::new(ends.to);
        // The order grows while it is read, so no iterator goes over it.
        let mut done = 0;
        while !seen.has(ends.from) {
            let place = seen.order[done] as usize;
            seen.go_back(self, flow, place);
            done += 1;
        }
        seen
    }
}
