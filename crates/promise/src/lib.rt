// What the book promises: sets of routes, the ledger of standing feeds and notices, and which answer is right.
#![tactic(auto)]

ghost use Rattle.promise.specs.Bandwidth.{CarriesUpToBandwidth};

// How the two routes of a feed carry it: in 1+1 mode both at once, in 1:1 mode one at a time.
#[derive(Clone, Copy, PartialEq, Eq, Debug)]
pub enum Mode {
    OnePlusOne,
    OneToOne,
}

// A pair of routes has a bandwidth, and where its circuits are open it can carry just the rates up to it.
pub fn pair_bandwidth_stands()
    ensures { CarriesUpToBandwidth }
{}
