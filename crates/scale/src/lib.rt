// Scales: how the costs of shared circuits are weighed, joined and compared.
#![tactic(auto)]

ghost use Rattle.std.specs.Prelude.{◌≡◌, if◌then◌else◌};
ghost use Rattle.scale.specs.Measure.{Measure, Lawful, AtMost};
ghost use Rattle.scale.specs.Shared.{SharingLessCostsNoMore, OrderDoesNotMatter};
ghost use Rattle.scale.specs.ThreeScales.{total as total_measure, worst as worst_measure, tally as tally_measure};
ghost use Rattle.scale.specs.ThreeScalesLawful.{total_lawful, worst_lawful, tally_lawful};

// A scale has values, a zero, the weight of a cost, a joining of two values, and "at most" between two.
pub trait Scale {
    type Value: Copy;

    // What the functions below mean, in the words of the laws.
    ghost measure: { Measure Self.Value };

    // What a set that shares nothing costs.
    fn zero() -> Self::Value
        ensures { result ≡ measure.zero };

    // The value of one circuit, by its failure cost.
    fn weight(cost: u32) -> Self::Value
        ensures { result ≡ measure.weight cost };

    // Two values put together.
    fn join(a: Self::Value, b: Self::Value) -> Self::Value
        ensures { result ≡ measure.join a b };

    // Whether the first value is at most the second.
    fn at_most(a: Self::Value, b: Self::Value) -> bool
        ensures { result ≡ measure.at_most a b };

    // Gives back what it was handed. The laws speak of a scale's values, and by this call generic code learns that what it holds is one.
    fn held(a: Self::Value) -> Self::Value
        ensures same { result ≡ a }
        ensures value { measure.value a };

    // Every scale shows that it keeps the laws.
    ghost lawful: { Lawful measure };
}

// The total of the costs. Weights are costs, and joining adds, up to the largest number of 32 bits.
#[derive(Clone, Copy)]
pub struct Total;

impl Scale for Total {
    type Value = u32;

    ghost measure = { total_measure };

    ghost lawful = { total_lawful };

    fn zero() -> u32 {
        0
    }

    fn weight(cost: u32) -> u32 {
        cost
    }

    fn join(a: u32, b: u32) -> u32 {
        a.saturating_add(b)
    }

    fn at_most(a: u32, b: u32) -> bool {
        a <= b
    }

    fn held(a: u32) -> u32 {
        a
    }
}

// The worst of the costs. Weights are costs, and joining takes the larger.
// An impl of its own, though it differs from that of `Total` in `join` alone: a trait of two for what joining is, with what
// the laws ask of it, would be no shorter.
#[derive(Clone, Copy)]
pub struct Worst;

impl Scale for Worst {
    type Value = u32;

    ghost measure = { worst_measure };

    ghost lawful = { worst_lawful };

    fn zero() -> u32 {
        0
    }

    fn weight(cost: u32) -> u32 {
        cost
    }

    fn join(a: u32, b: u32) -> u32 {
        a.max(b)
    }

    fn at_most(a: u32, b: u32) -> bool {
        a <= b
    }

    fn held(a: u32) -> u32 {
        a
    }
}

// The number of circuits and their total cost. Numbers are compared first. A number past 65,535 stops both at their largest.
#[derive(Clone, Copy)]
pub struct Tally;

impl Scale for Tally {
    type Value = (u16, u32);

    ghost measure = { tally_measure };

    ghost lawful = { tally_lawful };

    fn zero() -> (u16, u32) {
        (0, 0)
    }

    fn weight(cost: u32) -> (u16, u32) {
        (1, cost)
    }

    fn join(a: (u16, u32), b: (u16, u32)) -> (u16, u32) {
        match a.0.checked_add(b.0) {
            Some(number) => (number, a.1.saturating_add(b.1)),
            None => (u16::MAX, u32::MAX),
        }
    }

    fn at_most(a: (u16, u32), b: (u16, u32)) -> bool {
        a <= b
    }

    fn held(a: (u16, u32)) -> (u16, u32) {
        a
    }
}

// The lesser of two values, the first where each is at most the other. By the laws it is at most both.
pub fn lesser<S: Scale>(a: S::Value, b: S::Value) -> S::Value
    ensures which { result ≡ (if S.measure.at_most a b then a else b) }
    ensures least { AtMost S.measure result a × AtMost S.measure result b }
{
    let a = S::held(a);
    let b = S::held(b);
    if S::at_most(a, b) { a } else { b }
}

// On every scale, a set that shares less costs at most as much.
pub fn sharing_less_costs_no_more<S: Scale>()
    ensures { SharingLessCostsNoMore S.measure }
{}

// On every scale, the weights of the shared circuits give the shared cost in whatever order they are joined.
pub fn order_of_joining_does_not_matter<S: Scale>()
    ensures { OrderDoesNotMatter S.measure }
{}
