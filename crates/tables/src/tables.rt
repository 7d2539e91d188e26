// What the tables tell, each by the ledger that they stand for.
ghost use Rattle.std.specs.Prelude.{◌≡◌, ℕ, ◌<◌, ◌≤◌, ◌↔◌, true, false, [], ◌∷◌, vec_len, slice_index_or, IsTrue, MatchOption};
ghost use Rattle.network.specs.Routes.{times};
ghost use Rattle.promise.specs.Ledger.{Open};
ghost use Rattle.promise.specs.Promise.{Stands, feed_number, notice_number};
ghost use Rattle.tables.specs.Standing.{ledger_of, left_at, feed_at, notice_at};

use crate::numbered::find;
use crate::route::mark;
use crate::rows::{MAX_CIRCUITS, Tables};

impl Tables {
    // The bandwidth left on a circuit, or nothing where there is none of that number.
    pub fn left(&self, circuit: u32) -> Option<u32>
        ensures { MatchOption result (vec_len self.now.circuits ≤ circuit)
            (λ left. (circuit < vec_len self.now.circuits) × (left ≡ left_at self.now circuit)) }
    {
        self.circuits.get(circuit as usize).map(|c| c.left)
    }

    // Which circuits a standing notice names.
    pub fn closed(&self) -> [bool; MAX_CIRCUITS]
        ensures no { (c : ℕ) → c < 384 → slice_index_or result c false ≡ false → Open (ledger_of self.now) c }
        ensures yes { (c : ℕ) → c < 384 → slice_index_or result c false ≡ true → ¬ Open (ledger_of self.now) c }
    {
        let mut closed = [false; MAX_CIRCUITS];
        for notice in &self.notices {
            mark(&mut closed, notice.circuit as usize);
        }
        closed
    }

    // The place of the standing feed of that number, or nothing where none stands. It and `find_notice` are `find` in the
    // ledger's words: a trait for both would want the ledger's list, its entries and their numbers, and be longer than both.
    pub fn find_feed(&self, number: u32) -> Option<usize>
        ensures { MatchOption result (¬ Stands feed_number number (ledger_of self.now).feeds)
            (λ i. (i < vec_len self.now.feeds) × ((feed_at self.now i).number ≡ number)
            × Stands feed_number number (ledger_of self.now).feeds) }
    {
        find(&self.feeds, number)
    }

    // The place of the standing notice of that number, or nothing where none stands.
    pub fn find_notice(&self, number: u32) -> Option<usize>
        ensures { MatchOption result (¬ Stands notice_number number (ledger_of self.now).notices)
            (λ i. (i < vec_len self.now.notices) × ((notice_at self.now i).number ≡ number)
            × Stands notice_number number (ledger_of self.now).notices) }
    {
        find(&self.notices, number)
    }

    // Whether no standing notice names the circuit.
    pub fn is_open(&self, circuit: u32) -> bool
        ensures { IsTrue result ↔ Open (ledger_of self.now) circuit }
    {
        !self.notices.iter().any(|notice| notice.circuit == circuit)
    }

    // How many of the two routes of a standing feed use the circuit.
    pub fn uses(&self, i: usize, circuit: u32) -> u8
        requires { i < vec_len self.now.feeds }
        ensures { result ≡ times circuit ((feed_at self.now i).first ∷ (feed_at self.now i).second ∷ []) }
    {
        let feed = &self.feeds[i];
        u8::from(feed.first.uses(circuit)) + u8::from(feed.second.uses(circuit))
    }
}
