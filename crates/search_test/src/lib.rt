// The search on small networks.
#![tactic(auto)]

ghost use Rattle.std.specs.Prelude.{IsTrue};
ghost use Rattle.search.specs.Graph.{Proper};

#[cfg(test)]
mod tests {
    use search::{Arc, MAX_ARCS, MAX_PLACES, pair};
    use std::test::Fail;

    fn arc(from: u16, to: u16, lanes: u8) -> Arc {
        Arc { from, to, lanes }
    }

    // Whether the arcs join places below `places`.
    fn is_proper(arcs: &[Arc], places: usize) -> bool
        ensures { IsTrue result → Proper arcs.now places }
    {
        let few = arcs.len() <= MAX_ARCS && places <= MAX_PLACES;
        few && arcs.iter().all(|arc| {
            let ends = (arc.from as usize) < places && (arc.to as usize) < places;
            ends && arc.from != arc.to && arc.lanes <= 2
        })
    }

    // The two routes, where they can be asked for.
    fn routes(
        arcs: &[Arc],
        places: usize,
        from: usize,
        to: usize,
        first: &mut [u16],
        second: &mut [u16],
    ) -> Result<Option<(usize, usize)>, Fail> {
        if !is_proper(arcs, places) || from >= places || to >= places || from == to {
            return Err(Fail::new("no network"));
        }
        if first.len() < 127 || second.len() < 127 {
            return Err(Fail::new("no room"));
        }
        Ok(pair(arcs, places, from, to, first, second))
    }

    #[test]
    fn apart(rt: HostRuntime) -> Result<(), Fail> {
        let arcs = [arc(0, 1, 1), arc(1, 3, 1), arc(0, 2, 1), arc(2, 3, 1)];
        let mut first = [9; 127];
        let mut second = [9; 127];
        assert_eq!(rt;
            routes(&arcs, 4, 0, 3, &mut first, &mut second)?,
            Some((2, 2))
        );
        assert_eq!(rt; (first[0], first[1], first[2]), (0, 1, 9));
        assert_eq!(rt; (second[0], second[1], second[2]), (2, 3, 9));
        Ok(())
    }

    // The first route found, 0 → 1 → 2 → 3, blocks every other until it is taken back from 1 → 2.
    #[test]
    fn taken_back(rt: HostRuntime) -> Result<(), Fail> {
        let arcs = [
            arc(0, 1, 1),
            arc(1, 2, 1),
            arc(2, 3, 1),
            arc(0, 2, 1),
            arc(1, 3, 1),
        ];
        let mut first = [9; 127];
        let mut second = [9; 127];
        assert_eq!(rt;
            routes(&arcs, 4, 0, 3, &mut first, &mut second)?,
            Some((2, 2))
        );
        assert_ne!(rt; first[0], second[0]);
        assert_ne!(rt; first[1], second[1]);
        Ok(())
    }

    // Both routes need 1 → 2, which takes two, and they part after it.
    #[test]
    fn shared(rt: HostRuntime) -> Result<(), Fail> {
        let arcs = [
            arc(0, 1, 2),
            arc(1, 2, 1),
            arc(1, 2, 1),
            arc(2, 3, 2),
            arc(3, 4, 1),
            arc(3, 5, 2),
            arc(4, 5, 1),
        ];
        let mut first = [9; 127];
        let mut second = [9; 127];
        assert_eq!(rt;
            routes(&arcs, 6, 0, 5, &mut first, &mut second)?.is_some(),
            true
        );
        assert_eq!(rt; (first[0], second[0]), (0, 0));
        assert_ne!(rt; first[1], second[1]);
        assert_eq!(rt; (first[2], second[2]), (3, 3));
        assert_ne!(rt; first[3], second[3]);
        Ok(())
    }

    #[test]
    fn refused(rt: HostRuntime) -> Result<(), Fail> {
        let one_lane = [arc(0, 1, 2), arc(1, 2, 1), arc(2, 3, 2)];
        let no_route = [arc(0, 1, 2), arc(1, 2, 0), arc(3, 2, 2)];
        let mut first = [9; 127];
        let mut second = [9; 127];
        assert_eq!(rt; routes(&one_lane, 4, 0, 3, &mut first, &mut second)?, None);
        assert_eq!(rt; routes(&no_route, 4, 0, 2, &mut first, &mut second)?, None);
        assert_eq!(rt; (first[0], second[0]), (9, 9));
        Ok(())
    }
}
