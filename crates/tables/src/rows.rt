// The rows of the tables, and the tables themselves.
ghost use Rattle.std.specs.Prelude.{◌≤◌, vec_len, vec_capacity};

use promise::Mode;

// No route is longer: a network has at most 128 places, and a route visits none twice.
pub const MAX_ROUTE: usize = 127;

pub const MAX_CIRCUITS: usize = 384;

// At most so many feeds stand, and as many notices.
pub const MAX_STANDING: usize = 32;

// The circuits of a route, in its order; what stands past its length means nothing. No heap, since no call on a book
// may want memory, and no `ArrayVec`, since a feed is `Copy`.
#[derive(Clone, Copy)]
pub struct Route {
    pub length: usize,
    pub circuits: [u16; MAX_ROUTE],
    ghost short: { length ≤ 127 },
}

#[derive(Clone, Copy)]
pub struct CircuitState {
    pub left: u32,
}

#[derive(Clone, Copy)]
pub struct Feed {
    pub number: u32,
    pub from: u32,
    pub to: u32,
    pub rate: u32,
    pub mode: Mode,
    pub first: Route,
    pub second: Route,
    ghost most_rate: { rate ≤ 1000000 },
}

#[derive(Clone, Copy)]
pub struct Notice {
    pub number: u32,
    pub circuit: u32,
}

// Room for all that may stand is reserved when the tables are made, so that no later call wants memory.
#[derive(Drop)]
pub struct Tables {
    pub circuits: Vec<CircuitState>,
    pub feeds: Vec<Feed>,
    pub notices: Vec<Notice>,
    ghost few_circuits: { vec_len circuits ≤ 384 },
    ghost few_feeds: { vec_len feeds ≤ 32 },
    ghost few_notices: { vec_len notices ≤ 32 },
    ghost feed_room: { 32 ≤ vec_capacity feeds },
    ghost notice_room: { 32 ≤ vec_capacity notices },
}
