// The arcs, and for each place which of them start there and which end there, so that a search need not look at all arcs
// for each place.
ghost use Rattle.std.specs.Prelude.{◌≡◌, ◌<◌, ◌≤◌, length};
ghost use Rattle.search.specs.Graph.{arc, Proper};
ghost use Rattle.search.specs.Links.{end_by, arcs_at, Linked, Indexed};
ghost use Rattle.search.specs.declared.graph.By.TheVariants.{Start, End};

use crate::{Arc, MAX_ARCS, MAX_PLACES};

// Past every arc: a chain ends here. A number, not an `Option`: `get` of it finds no arc, which ends the chain with no test.
const PAST: u16 = 384;

// The end by which arcs are chained.
#[derive(Clone, Copy)]
pub(crate) enum By {
    Start,
    End,
}

impl By {
    // The place of an arc at that end.
    fn place(self, arc: Arc) -> u16
        ensures { result ≡ end_by self arc }
    {
        match self {
            By::Start => arc.from,
            By::End => arc.to,
        }
    }
}

// For each place its first arc, and for each arc the next of the same place. The numbers rise along a chain. Arrays of one
// size, since no call may want memory.
#[derive(Drop)]
pub(crate) struct Chains {
    by: By,
    first: [u16; MAX_PLACES],
    next: [u16; MAX_ARCS],
}

impl Chains {
    pub(crate) fn new(arcs: &[Arc], by: By) -> Chains
        requires { Proper arcs.now 128 }
        ensures by { result.by ≡ by }
        ensures linked { Linked arcs.now (end_by by) 0 result.first result.next }
    {
        let mut first = [PAST; MAX_PLACES];
        let mut next = [PAST; MAX_ARCS];
        for (c, arc) in arcs.iter().enumerate().rev() {
            let place = by.place(*arc) as usize;
            next[c] = first[place];
            first[place] = c as u16;
        }
        Chains { by, first, next }
    }
}

// The arcs and their chains. All of it is lent: with the chains in it, clearing the struct alone costs a fifth of a search.
#[derive(Clone, Copy)]
pub(crate) struct Graph<'a> {
    pub(crate) arcs: &'a [Arc],
    out: &'a Chains,
    into: &'a Chains,
    ghost proper: { Proper arcs.now 128 },
    ghost indexed: { Indexed arcs.now out.now into.now },
    ghost by_start: { out.now.by ≡ Start },
    ghost by_end: { into.now.by ≡ End },
}

impl<'a> Graph<'a> {
    ghost use Rattle.search.specs.Remaining.{arcs_left};

    pub(crate) fn new(arcs: &'a [Arc], out: &'a Chains, into: &'a Chains) -> Graph<'a>
        requires proper { Proper arcs.now 128 }
        requires indexed { Indexed arcs.now out.now into.now }
        requires by { (out.now.by ≡ Start) × (into.now.by ≡ End) }
        ensures { result.arcs.now ≡ arcs.now }
    {
        Graph { arcs, out, into }
    }

    // The arcs that start at a place, or those that end there.
    pub(crate) fn at(&self, by: By, place: usize) -> ArcsAt<'_>
        requires { place < 128 }
        ensures { arcs_left result ≡ arcs_at self.now.arcs.now by place 0 }
    {
        let chains = match by {
            By::Start => self.out,
            By::End => self.into,
        };
        ArcsAt {
            arcs: self.arcs,
            chains,
            place,
            at: chains.first[place] as usize,
        }
    }
}

// The arcs of one place, each with its number, from the arc `at` on.
#[derive(Drop)]
pub(crate) struct ArcsAt<'a> {
    arcs: &'a [Arc],
    chains: &'a Chains,
    place: usize,
    at: usize,
    ghost few: { length arcs.now ≤ 384 },
    ghost linked: { Linked arcs.now (end_by chains.now.by) 0 chains.now.first chains.now.next },
    ghost on: { at < length arcs.now → end_by chains.now.by (arc arcs.now at) ≡ place },
}

impl<'a> Iterator for ArcsAt<'a> {
    ghost use Rattle.std.specs.Iterator.{YieldsFirst, item_count};
    ghost use Rattle.search.specs.Remaining.{arcs_left};

    type Item = (usize, Arc);

    ghost next_gives = { YieldsFirst arcs_left };

    ghost remaining = { item_count arcs_left };

    fn next(&mut self) -> Option<(usize, Arc)> {
        let c = self.at;
        let arc = *self.arcs.get(c)?;
        self.at = self.chains.next[c] as usize;
        Some((c, arc))
    }
}
