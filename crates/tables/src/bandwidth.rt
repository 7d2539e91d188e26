// The bandwidth left on each circuit: one circuit's state lent, and what a feed takes and gives back.
ghost use Rattle.std.specs.Prelude.{◌≡◌, ℕ, ◌<◌, vec_len, slice_index_or};
ghost use Rattle.std.specs.Borrow.{sem, follows};
ghost use Rattle.network.specs.Routes.{uses};
ghost use Rattle.tables.specs.contracts.rows.CircuitState.{the_row as circuit_row};
ghost use Rattle.tables.specs.contracts.rows.Tables.{the_row as tables_row};
ghost use Rattle.tables.specs.Standing.{route_of, feed_of, left_at, taken_by, idle, with_circuit, SameButLeft, TakenOff, GivenBack};

use crate::route::marks;
use crate::rows::{CircuitState, Feed, Tables};
use promise::Mode;

impl Tables {
    // Lends one circuit's state: the tables then have it as it is given back, and all else as it was.
    pub fn circuit_mut(&mut self, circuit: usize) -> &mut CircuitState
        requires { circuit < vec_len self.old.circuits }
        ensures* follow { sem 𝓛 (follows tables_row circuit_row self.entry.ghost_name result.ghost_name (with_circuit self.old circuit)) }
        ensures value { result.now ≡ slice_index_or self.old.circuits.items circuit idle }
    {
        &mut self.circuits[circuit]
    }

    // Changes what is left on each circuit by what the feed takes there.
    fn change_left<F: Fn(u32, u32) -> u32>(&mut self, feed: &Feed, change: F)
        requires { F.IsAlwaysCallable change }
        ensures left { (c : ℕ) → c < vec_len self.old.circuits
            → F.post change (left_at self.old c) (taken_by (feed_of feed.now) c) (left_at self.new c) }
        ensures rest { SameButLeft self.old self.new }
    {
        let first = marks(&feed.first);
        let second = marks(&feed.second);
        // By number, since the tables lend a circuit's state by its number. What is taken is told one by one: a list for all
        // circuits that may be would cost a small network more than the change itself.
        for number in 0..self.circuits.len() {
            let taken = feed.amount(first[number], second[number]);
            let circuit = self.circuit_mut(number);
            circuit.left = change(circuit.left, taken);
        }
    }

    // Takes what the feed takes on each circuit.
    pub fn take(&mut self, feed: &Feed)
        ensures left { TakenOff (feed_of feed.now) self.old self.new }
        ensures rest { SameButLeft self.old self.new }
    {
        self.change_left(feed, |left, taken| left.saturating_sub(taken));
    }

    // Gives back what the feed takes on each circuit.
    pub fn give_back(&mut self, feed: &Feed)
        ensures left { GivenBack (feed_of feed.now) self.old self.new }
        ensures rest { SameButLeft self.old self.new }
    {
        self.change_left(feed, |left, given| left.saturating_add(given));
    }
}

impl Feed {
    // What the feed takes on a circuit, by which of its routes use it.
    fn amount(&self, in_first: bool, in_second: bool) -> u32
        ensures { (c : ℕ) → in_first ≡ uses c (route_of self.now.first) → in_second ≡ uses c (route_of self.now.second)
            → result ≡ taken_by (feed_of self.now) c }
    {
        match self.mode {
            Mode::OnePlusOne => (u32::from(in_first) + u32::from(in_second)) * self.rate,
            Mode::OneToOne => { if in_first || in_second { self.rate } else { 0 } }
        }
    }
}
