// A fourth scale, made outside the crate of scales, and cases for the three inside it.
#![tactic(auto)]

ghost use Rattle.scale_test.specs.Even.{even as even_measure, even_lawful};

use scale::Scale;

// All values are equal: every set costs as much as any other.
#[derive(Clone, Copy)]
pub struct Even;

impl Scale for Even {
    type Value = ();

    ghost measure = { even_measure };

    ghost lawful = { even_lawful };

    fn zero() {}

    fn weight(_cost: u32) {}

    fn join(_a: (), _b: ()) {}

    fn at_most(_a: (), _b: ()) -> bool {
        true
    }

    fn held(_a: ()) {}
}

#[cfg(test)]
mod tests {
    use super::*;

    const MOST: u32 = 4_294_967_295;

    // Two numbers, what they join to in total and at worst, and whether the first is at most the second.
    const NUMBERS: [(u32, u32, u32, u32, bool); 5] = [
        (0, 7, 7, 7, true),
        (3, 2, 5, 3, false),
        (4, 4, 8, 4, true),
        (MOST - 1, 1, MOST, MOST - 1, false),
        (MOST, 1_000_000, MOST, MOST, false),
    ];

    // Two tallies, what they join to, and whether the first is at most the second: numbers first, then totals.
    const TALLIES: [((u16, u32), (u16, u32), (u16, u32), bool); 6] = [
        ((0, 0), (1, 4), (1, 4), true),
        ((1, 9), (2, 5), (3, 14), true),
        ((2, 5), (1, 9), (3, 14), false),
        ((2, 5), (2, 4), (4, 9), false),
        ((2, MOST), (65_533, 1), (65_535, MOST), true),
        ((65_535, 0), (1, 0), (65_535, MOST), false),
    ];

    #[test]
    fn three_scales(rt: HostRuntime) {
        for (a, b, total, worst, at_most) in NUMBERS {
            assert_eq!(rt; <scale::Total as Scale>::join(a, b), total);
            assert_eq!(rt; <scale::Worst as Scale>::join(a, b), worst);
            assert_eq!(rt;
                (
                    <scale::Total as Scale>::at_most(a, b),
                    <scale::Worst as Scale>::at_most(a, b)
                ),
                (at_most, at_most)
            );
        }
        for (a, b, joined, at_most) in TALLIES {
            assert_eq!(rt; <scale::Tally as Scale>::join(a, b), joined);
            assert_eq!(rt; <scale::Tally as Scale>::at_most(a, b), at_most);
        }
        assert_eq!(rt;
            (
                <scale::Total as Scale>::weight(5),
                <scale::Worst as Scale>::weight(5),
                <scale::Tally as Scale>::weight(5),
            ),
            (5, 5, (1, 5))
        );
    }
}
